// What is written of a value: the number that its low bits stand for.
ghost use Rattle.std.specs.Prelude.{◌≡◌, true, ◌&&◌, cond, ◌*◌, ◌-◌, ◌<◌, ◌≤◌, leb};
ghost use Rattle.forms.specs.inner.Steps.{number_in};

use crate::forms::{Width, low_part};

// A sign and a size: both always mean something, so that neither is an Option of the other.
#[derive(Clone, Copy)]
pub struct Number {
    pub negative: bool,
    // How far it is from 0.
    pub magnitude: u32,
}

// Whether the used bits of a width stand for a number below 0.
fn is_negative(signed: bool, span: u64, used: u32) -> bool
    ensures { result ≡ (signed && leb span (2 * used)) }
{
    signed && span <= 2 * u64::from(used)
}

// How far the number is from 0. Below 0 that is taken from the width's span, so that the lowest number is never negated in its own
// width.
fn magnitude_of(negative: bool, span: u64, used: u32) -> u32
    requires { (used < span) × (negative ≡ true → span ≤ 2 * used) }
    ensures { result ≡ cond negative (span - used) used }
{
    if negative {
        return (span - u64::from(used)) as u32;
    }
    used
}

// The number that the low bits of a value stand for.
pub fn number_in(signed: bool, width: Width, value: u32) -> Number
    ensures { result ≡ number_in signed width value }
{
    let span = width.span();
    let used = low_part(value, span);
    let negative = is_negative(signed, span, used);
    let magnitude = magnitude_of(negative, span, used);
    Number {
        negative,
        magnitude,
    }
}
