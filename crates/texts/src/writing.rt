// Texts and numbers, written one behind the other into a buffer that the caller lent.
ghost use Rattle.std.specs.Prelude.{◌≡◌, ◌<◌, [], ◌∷◌, ◌+◌, ◌++◌, decimal};
ghost use Rattle.texts.specs.Writing.{HasRoom, Wrote};

// No `fmt::Write`: its contract says nothing of success, and nothing here fails within its room.
#[derive(Drop)]
pub(crate) struct Writer<'a> {
    out: &'a mut [u8],
    // How many bytes are written.
    at: usize,
}

impl<'a> Writer<'a> {
    pub(crate) fn new(out: &'a mut [u8]) -> Writer<'a>
        ensures same { result.out.ghost_name ≡ out.entry.ghost_name }
        ensures out { result.out.now ≡ out.old }
        ensures at { result.at ≡ 0 }
    {
        Writer { out, at: 0 }
    }

    pub(crate) fn written(&self) -> usize
        ensures { result ≡ self.now.at }
    {
        self.at
    }

    pub(crate) fn text(&mut self, text: &str)
        requires { HasRoom self.old text.now }
        ensures { Wrote self.old text.now self.new }
    {
        let next = self.at + text.len();
        self.out[self.at..next].copy_from_slice(text.as_bytes());
        self.at = next;
    }

    // A number behind its label.
    pub(crate) fn labelled(&mut self, label: &str, value: u64)
        requires { HasRoom self.old (label.now ++ decimal value) }
        ensures { Wrote self.old (label.now ++ decimal value) self.new }
    {
        self.text(label);
        self.number(value);
    }

    // The decimal digits of a number: its last digit stands behind those of its tenth.
    pub(crate) fn number(&mut self, value: u64)
        requires { HasRoom self.old (decimal value) }
        ensures { Wrote self.old (decimal value) self.new }
    {
        if value < 10 {
            return self.digit(value as u8);
        }
        self.number(value / 10);
        self.digit((value % 10) as u8);
    }

    fn digit(&mut self, digit: u8)
        requires few { digit < 10 }
        requires room { HasRoom self.old ((48 + digit) ∷ []) }
        ensures { Wrote self.old ((48 + digit) ∷ []) self.new }
    {
        self.out[self.at] = b'0' + digit;
        self.at += 1;
    }
}
