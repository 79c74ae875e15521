// An integer variable's value: four bytes, the lowest first, as a 32-bit pattern.
ghost use Rattle.std.specs.Prelude.{◌≡◌};
ghost use Rattle.records.specs.Kinds.{pattern};

use paper::bytes::byte;

// Past the end of a value zeros are read.
pub fn pattern_of(value: &[u8]) -> u32
    ensures { result ≡ pattern value.now }
{
    u32::from_le_bytes([
        byte(value, 0),
        byte(value, 1),
        byte(value, 2),
        byte(value, 3),
    ])
}
