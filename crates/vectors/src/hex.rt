// Hex digits in lower case, two to a byte.
ghost use Rattle.std.specs.Prelude.{◌<◌, IfSome};

// Whether a slice is pairs of digits and nothing else.
pub(crate) fn is_pairs(s: &[u8]) -> bool {
    s.len().is_multiple_of(2) && s.iter().all(|c| digit_of(*c).is_some())
}

// The byte of two digits, if both are digits.
pub(crate) fn byte_of(high: u8, low: u8) -> Option<u8> {
    let high = digit_of(high)?;
    let low = digit_of(low)?;
    Some(high * 16 + low)
}

fn digit_of(c: u8) -> Option<u8>
    ensures { IfSome result (λ digit. digit < 16) }
{
    match c {
        b'0'..=b'9' => Some(c - b'0'),
        b'a'..=b'f' => Some(c - b'a' + 10),
        _ => None,
    }
}
