// The three flags of a text, as bits of one word; the other bits count for nothing.
ghost use Rattle.std.specs.Prelude.{◌≡◌};
ghost use Rattle.symbols.specs.Flags.{has};

#[derive(Clone, Copy)]
pub struct Flags(pub u32);

impl Flags {
    // Bit 29: a space ends the text.
    pub const SPACE_ENDS: u32 = 0x2000_0000;
    // Bit 30: "|" is ordinary.
    pub const BAR_PLAIN: u32 = 0x4000_0000;
    // Bit 31: quotes are ordinary.
    pub const QUOTE_PLAIN: u32 = 0x8000_0000;

    // `of` and `none` stand in the place of From and Default: the theorem `Determined` of promises is about these two functions.
    pub fn of(word: u32) -> Self
        ensures { result.0 ≡ word }
    {
        Flags(word)
    }

    pub fn none() -> Self
        ensures { result.0 ≡ 0 }
    {
        Flags(0)
    }

    // Whether a bit is set, one of the three above. No bit is 0.
    pub fn has(self, bit: u32) -> bool
        ensures { result ≡ has self.0 bit }
    {
        bit != 0 && self.0 / bit % 2 == 1
    }
}
