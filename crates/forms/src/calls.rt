// The calls by their numbers: which family each of them is of, and its width.
ghost use Rattle.std.specs.Prelude.{◌≡◌};
ghost use Rattle.forms.specs.Calls.{without_x, width_number, ranged, described};
ghost use Rattle.forms.specs.inner.Steps.{form_of};

use crate::forms::Width;

// The family of a call with its width.
#[derive(Clone, Copy)]
pub enum Family {
    Hex(Width),
    Binary(Width),
    Unsigned(Width),
    Signed(Width),
    SpacedUnsigned(Width),
    SpacedSigned(Width),
    // Signed, of four bytes, and nothing behind the characters.
    Bare,
}

// The call's number with bit 17, that of the X form, cleared.
fn without_x(call: u32) -> u32
    ensures { result ≡ without_x call }
{
    if call / 131072 % 2 == 1 {
        return call - 131072;
    }
    call
}

// No From: only a call's distance inside its family is such a number, and one above 4 is none, which the family's range keeps out.
fn width_number(n: u32) -> Width
    ensures { result ≡ width_number n }
{
    match n {
        0 => Width::Nibble,
        1 => Width::Byte,
        2 => Width::TwoBytes,
        3 => Width::ThreeBytes,
        _ => Width::Word,
    }
}

// &D0 to &E8, each family from its narrowest width to its widest.
#[tactic(auto, using(std::proofs::lemmas::Bool::Decides::nat_tests), unfolding(crate::specs::Calls::ranged))]
fn in_range(c: u32) -> Option<Family>
    ensures { form_of result ≡ ranged c }
{
    match c {
        0xD0..=0xD4 => Some(Family::Hex(width_number(c - 0xD0))),
        0xD5..=0xD8 => Some(Family::Unsigned(width_number(c - 0xD4))),
        0xD9..=0xDC => Some(Family::Signed(width_number(c - 0xD8))),
        0xDD..=0xE0 => Some(Family::Binary(width_number(c - 0xDC))),
        0xE1..=0xE4 => Some(Family::SpacedUnsigned(width_number(c - 0xE0))),
        0xE5..=0xE8 => Some(Family::SpacedSigned(width_number(c - 0xE4))),
        _ => None,
    }
}

// The family of a call, if its number is a call's. &28 is as &DC, with no zero byte.
#[tactic(auto, using(std::proofs::lemmas::Bool::Decides::nat_tests), unfolding(crate::specs::Calls::described))]
pub fn family_of(call: u32) -> Option<Family>
    ensures { form_of result ≡ described call }
{
    match without_x(call) {
        0x28 => Some(Family::Bare),
        c => in_range(c),
    }
}
