// What a call counts in, and how much of the value it uses.
ghost use Rattle.std.specs.Prelude.{◌≡◌, ℕ, ◌/◌, ◌%◌, ◌^◌, ◌≤◌};
ghost use Rattle.forms.specs.Digits.{glyph};
ghost use Rattle.forms.specs.Strings.{radix, bits};

#[derive(Clone, Copy)]
pub enum Base {
    Two,
    Ten,
    Sixteen,
}

// How much of the value a call uses, from the low end.
#[derive(Clone, Copy)]
pub enum Width {
    Nibble,
    Byte,
    TwoBytes,
    ThreeBytes,
    Word,
}

impl Base {
    // Division by a number that is known in each arm, which is the fast one.
    pub fn shrink(self, n: u32) -> u32
        ensures { result ≡ n / radix self }
    {
        match self {
            Base::Two => n / 2,
            Base::Ten => n / 10,
            Base::Sixteen => n / 16,
        }
    }

    // The last digit of n.
    fn last_digit(self, n: u32) -> u32
        ensures { result ≡ n % radix self }
    {
        match self {
            Base::Two => n % 2,
            Base::Ten => n % 10,
            Base::Sixteen => n % 16,
        }
    }

    // The last digit of n, as a byte.
    pub fn last_glyph(self, n: u32) -> u8
        ensures { result ≡ glyph (n % radix self) }
    {
        let digit = self.last_digit(n);
        if digit < 10 {
            return b'0' + digit as u8;
        }
        b'A' - 10 + digit as u8
    }
}

impl Width {
    pub fn bits(self) -> u8
        ensures { result ≡ bits self }
    {
        match self {
            Width::Nibble => 4,
            Width::Byte => 8,
            Width::TwoBytes => 16,
            Width::ThreeBytes => 24,
            Width::Word => 32,
        }
    }

    // One more than the largest number of the width.
    pub(crate) fn span(self) -> u64
        ensures { result ≡ 2 ^ bits self }
    {
        1u64 << self.bits()
    }

    // The low bits of a value that the width keeps.
    pub fn low_bits(self, value: u32) -> u32
        ensures { result ≡ value % 2 ^ bits self }
    {
        low_part(value, self.span())
    }
}

// What a division by a span leaves of a value. A span is a power of two, so a mask does it, with no jump that goes by the width.
pub(crate) fn low_part(value: u32, span: u64) -> u32
    requires { (k : ℕ) × (k ≤ 32) × (span ≡ 2 ^ k) }
    ensures { result ≡ value % span }
{
    value & (span - 1) as u32
}
