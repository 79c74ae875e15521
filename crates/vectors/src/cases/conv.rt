// `conv CALL VALUE ROOM`: a conversion by its call's number.
use crate::answers::Place;
use crate::cases::rooms::{refused, written};
use crate::fields::Case;
use crate::frame;
use crate::frame::FILLER;
use paper::layings::Converted;

pub(crate) fn answer(rt: &impl Print, case: Case<'_>, lent: &mut [u8]) {
    let call = case.number(1);
    let value = case.number(2);
    let framed = frame::framed(lent, case.number(3));
    let converted = numbers::convert(call, value, frame::room(framed));
    show(rt, converted, behind(call), framed);
}

// What is to stand behind the string: a zero byte, or where &28 and its X form have none what stood there. The case says it, and not
// the answer.
fn behind(call: u32) -> u8 {
    match call {
        0x28 | 0x20028 => FILLER,
        _ => 0,
    }
}

// The answer to a conversion, of a number or of a date.
pub(crate) fn show(rt: &impl Print, converted: Converted, behind: u8, framed: &[u8]) {
    match converted {
        Ok(string) => written(rt, string.offset, string.free, behind, framed),
        Err(not) => {
            let place = Place::Bare(not.at.0);
            refused(rt, not.why, place, not.need, not.free, framed)
        }
    }
}
