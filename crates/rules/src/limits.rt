// The limits that every rule source keeps.
ghost use Rattle.std.specs.Prelude.{◌≡◌};
ghost use Rattle.sets.specs.Limits.{max_atoms};
ghost use Rattle.rules.specs.Limits.{max_rules, max_body, max_size};

use sets::MAX_ATOMS;

pub const MAX_RULES: usize = 4096;

// Body atoms of one rule.
pub const MAX_BODY: usize = 64;

// Rules plus body atoms.
pub const MAX_SIZE: usize = 8192;

#[derive(Clone, Copy)]
pub struct Limits {
    pub atoms: u32,
    pub rules: usize,
    pub body: usize,
    pub size: usize,
}

// The limits of the code are those of the definitions.
pub fn limits_of_a_source() -> Limits
    ensures { result ≡ record { atoms = max_atoms; rules = max_rules; body = max_body; size = max_size } }
{
    Limits {
        atoms: MAX_ATOMS,
        rules: MAX_RULES,
        body: MAX_BODY,
        size: MAX_SIZE,
    }
}
