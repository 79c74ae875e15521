// The bytes that a string or an integer gives for a look-up.
ghost use Rattle.std.specs.Prelude.{List, ℕ, ◌≤◌, ◌^◌, length};
ghost use Rattle.paper.specs.Traces.{asks, spends};
ghost use Rattle.forms.specs.Calls.{decimal_of};
ghost use Rattle.records.specs.Kinds.{pattern};
ghost use Rattle.gs.specs.Readings.{gives_all};
ghost use Rattle.gs.specs.inner.Steps.{Came};

use crate::steps::Carried;
use numbers::signed_decimal;
use paper::TextPlace;
use paper::refusals::{Refusal, Refused};
use records::integers::pattern_of;
use runs::output;

// Up to 255 bytes for one look-up.
pub(crate) fn give(
    given: &[u8],
    carried: Carried,
    at: TextPlace,
    out: &mut [u8],
) -> Result<Carried, Refused>
    requires { (length given.now ≤ 255) × (carried.to ≤ 2 ^ 40) }
    ensures { (name : List ℕ) → Came (λ rest. asks name (spends at.0 (gives_all given.now rest))) carried.left carried.to out.old out.new result }
{
    if carried.left == 0 {
        return Err(Refused {
            why: Refusal::AllowanceSpent,
            at,
        });
    }
    output::copy(given, carried.to, out);
    Ok(Carried {
        to: carried.to + given.len(),
        left: carried.left - 1,
    })
}

// The signed decimal of an integer variable, for one look-up.
pub(crate) fn give_integer(
    value: &[u8],
    carried: Carried,
    at: TextPlace,
    out: &mut [u8],
) -> Result<Carried, Refused>
    requires { carried.to ≤ 2 ^ 40 }
    ensures { (name : List ℕ) → Came (λ rest. asks name (spends at.0 (gives_all (decimal_of (pattern value.now)) rest))) carried.left carried.to out.old out.new result }
{
    // An array with a count beside it: no heap, and `Determined` says of `signed_decimal` that it answers a count.
    let mut digits = [0u8; 11];
    let count = signed_decimal(pattern_of(value), &mut digits);
    give(&digits[0..count], carried, at, out)
}
