// A rule source that owns its rules, laid out flat.
mod adding;
mod asking;
mod copying;

ghost use Rattle.std.specs.Prelude.{◌≡◌, ℕ, ◌+◌, ◌-◌, ◌<◌, length, get_or, slice_index_or};
ghost use Rattle.rules.specs.Program.{Within, weight};
ghost use Rattle.rules.specs.Laid.{laid_program, no_entry, Ordered};

// A rule: its head, and where in the body atoms of all rules its own begin, its negative ones begin, and its own end.
#[derive(Clone, Copy, Default)]
pub struct Entry {
    pub head: u32,
    pub start: usize,
    pub split: usize,
    pub end: usize,
}

// Tried: a `Vec` of literals for each rule. It copies 1.4 to 1.5 times slower; the bar is a tenth (docs/DESIGN-PASS.md).
#[derive(Drop)]
pub struct RuleTable {
    atoms: u32,
    entries: Vec<Entry>,
    body: Vec<u32>,
    ghost ordered: { (k : ℕ) → k < length entries.items → Ordered (length body.items) (slice_index_or entries.items k no_entry) },
    ghost last: { 0 < length entries.items → (get_or entries.items (length entries.items - 1) no_entry).end ≡ length body.items },
    ghost weighed: { weight (laid_program atoms entries.items (body.items)).rules ≡ length entries.items + length body.items },
    ghost kept: { ∥ Within (laid_program atoms entries.items body.items) ∥₁ },
}
