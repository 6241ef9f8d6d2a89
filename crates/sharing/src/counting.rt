// Pairs that pass a test: how many there are, and which comes at a place. Loops, and no chains of `filter`, which ask more at each pair.
ghost use Rattle.std.specs.Prelude.{◌≡◌, ℕ, ◌≤◌, Bool, length, slice_get};
ghost use Rattle.sets.specs.Limits.{max_atoms};
ghost use Rattle.sets.specs.Sets.{rising};

pub(crate) trait PairTest {
    ghost passes: { Self → ℕ → Bool };

    fn holds(&self, pair: u32) -> bool
        ensures { result ≡ passes self.now pair };
}

// How many pairs pass, of those up to `last`.
pub(crate) fn count_passing<T: PairTest>(test: &T, last: u32) -> usize
    requires { last ≤ max_atoms }
    ensures { result ≡ length (rising (T.PairTest.passes test.now) last) }
{
    let mut count = 0;
    for pair in 1..last + 1 {
        if !test.holds(pair) {
            continue;
        }
        count += 1;
    }
    count
}

// The pair at a place among those that pass, counted from 0.
pub(crate) fn nth_passing<T: PairTest>(test: &T, last: u32, place: usize) -> Option<u32>
    requires { last ≤ max_atoms }
    ensures { result ≡ slice_get (rising (T.PairTest.passes test.now) last) place }
{
    let mut count = 0;
    for pair in 1..last + 1 {
        if !test.holds(pair) {
            continue;
        }
        if count == place {
            return Some(pair);
        }
        count += 1;
    }
    None
}
