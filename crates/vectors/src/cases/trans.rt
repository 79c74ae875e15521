// `trans TEXTHEX FARMHEX HOUSEHEX INDEX FLAGS ALLOWANCE ROOM`: the translation of a text over two tables. The index is that of the second
// one, or `x` where none is given.
use crate::answers::{Hex, Place};
use crate::cases::rooms::refused;
use crate::fields::Case;
use crate::frame;
use crate::frame::FILLER;
use gs::{NotTranslated, Translated};
use paper::refusals::Refusal;
use symbols::flags::Flags;
use variables::both::Tables;

pub(crate) fn answer(rt: &impl Print, case: Case<'_>, lent: &mut [u8]) {
    let [text, farm, house, index] = case.bytes;
    let tables = Tables { farm, house };
    let flags = Flags(case.number(5));
    let allowance = case.number(6);
    let framed = frame::framed(lent, case.number(7));
    let translated = gs::translate(
        text,
        &tables,
        case.is_given(4).then_some(index),
        flags,
        allowance,
        frame::room(framed),
    );
    show(rt, translated, framed);
}

fn show(rt: &impl Print, translated: Result<Translated, NotTranslated>, framed: &[u8]) {
    match translated {
        Ok(Translated { end, need, free }) => written(rt, end.0, need, free, framed),
        Err(
            NotTranslated::Refused {
                why,
                at,
                need,
                free,
            },
        ) => refused(rt, why, Place::InText(at), need, free, framed),
        Err(NotTranslated::BadTable { bad, free }) => {
            let place = Place::InTable(bad.holder, bad.at);
            refused(rt, bad.why, place, 0, free, framed)
        }
        Err(NotTranslated::BadIndex { free }) => {
            refused(rt, Refusal::BadIndex, Place::InIndex, 0, free, framed)
        }
    }
}

// `ok OUTHEX END NEED FREE`: not the line of `rooms`, which has no end.
fn written(rt: &impl Print, end: usize, need: usize, free: usize, framed: &[u8]) {
    let (bytes, behind) = frame::cut(framed, need);
    let bytes = Hex(bytes);
    let _ = print!(rt; "ok {bytes} {end} {need} {free}");
    frame::watch(rt, behind, FILLER);
}
