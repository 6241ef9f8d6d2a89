// What stands in both reports: the percentage, and the sign of an atom.
ghost use Rattle.std.specs.Prelude.{◌≡◌};
ghost use Rattle.texts.specs.Texts as texts;
ghost use Rattle.texts.specs.Buffered as buffered;

// Rounded down, and 0 of nothing.
pub(crate) fn percent(count: u32, atoms: u32) -> u64
    ensures { result ≡ texts.percent count atoms }
{
    if atoms == 0 {
        return 0;
    }
    100 * u64::from(count) / u64::from(atoms)
}

pub(crate) fn sign_of(planned: bool) -> &'static str
    ensures { result.now ≡ buffered.sign planned }
{
    if planned { "+" } else { "-" }
}
