// Sets of atoms, at the ends of their words.
use sets::AtomSet;
use std::test::Fail;

fn ends() -> AtomSet {
    let mut set = AtomSet::new();
    for atom in [1, 64, 65, 1024] {
        let _ = set.insert(atom);
    }
    set
}

#[test]
fn an_atom_is_new_once(rt: HostRuntime) {
    let mut set = AtomSet::new();
    for atom in [64, 1024, 1, 65] {
        assert!(rt; !set.contains(atom));
        assert!(rt; set.insert(atom));
        assert!(rt; !set.insert(atom));
        assert!(rt; set.contains(atom));
    }
    assert_eq!(rt; set.count(), 4);
    assert_eq!(rt;
        [set.contains(2), set.contains(63), set.contains(66)],
        [false; 3]
    );
}

#[test]
fn an_atom_is_removed_once(rt: HostRuntime) {
    let mut set = ends();
    for atom in [64, 1024, 1, 65] {
        assert!(rt; set.remove(atom));
        assert!(rt; !set.remove(atom));
        assert!(rt; !set.contains(atom));
    }
    assert_eq!(rt; set.count(), 0);
}

#[test]
fn numbers_that_are_no_atoms_are_never_in(rt: HostRuntime) {
    let mut set = ends();
    for atom in [0, 1025, u32::MAX] {
        assert!(rt; !set.insert(atom));
        assert!(rt; !set.contains(atom));
        assert!(rt; !set.remove(atom));
    }
    assert_eq!(rt; set.count(), 4);
}

#[test]
fn members_rise(rt: HostRuntime) -> Result<(), Fail> {
    let set = ends();
    let mut seen = Vec::new(rt.alloc());
    for atom in set.members() {
        seen.push(atom)?;
    }
    assert_eq!(rt; seen.as_slice(), [1, 64, 65, 1024].as_slice());
    Ok(())
}

#[test]
fn a_difference_has_what_the_other_set_lacks(rt: HostRuntime) -> Result<(), Fail> {
    let mut other = AtomSet::new();
    for atom in [2, 64, 1024] {
        let _ = other.insert(atom);
    }
    let rest = ends().difference(&other);
    let mut seen = Vec::new(rt.alloc());
    for atom in rest.members() {
        seen.push(atom)?;
    }
    assert_eq!(rt; seen.as_slice(), [1, 65].as_slice());
    Ok(())
}
