// `read TEXTHEX WHOLE LIMIT`: the unsigned reader on a text.
use crate::answers;
use crate::answers::Place;
use crate::fields::Case;

pub(crate) fn answer(rt: &impl Print, case: Case<'_>) {
    let [text, ..] = case.bytes;
    let whole = case.number(2) == 1;
    let reading = reader::read_unsigned(text, whole, case.number(3));
    match reading {
        Ok(number) => value(rt, number.value as usize, number.end.0),
        Err(refused) => answers::refusal(rt, refused.why, Place::Bare(refused.at.0)),
    }
}

// `val VALUE PLACE`
fn value(rt: &impl Print, number: usize, place: usize) {
    let _ = print!(rt; "val {number} {place}");
}
