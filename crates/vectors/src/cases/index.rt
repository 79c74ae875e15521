// `index TABLEHEX ROOM`: the index of a table.
use crate::answers::Place;
use crate::cases::rooms::{refused, written};
use crate::fields::Case;
use crate::frame;
use crate::frame::FILLER;
use indexes::building::{Built, NotBuilt, build_index};
use paper::refusals::Refusal;
use paper::{Holder, TextPlace};

pub(crate) fn answer(rt: &impl Print, case: Case<'_>, lent: &mut [u8]) {
    let [table, ..] = case.bytes;
    let framed = frame::framed(lent, case.number(2));
    let built = build_index(table, frame::room(framed));
    show(rt, built, framed);
}

fn show(rt: &impl Print, built: Result<Built, NotBuilt>, framed: &[u8]) {
    match built {
        Ok(Built { need, free }) => written(rt, need, free, FILLER, framed),
        Err(NotBuilt::NoRoom { need, free }) => {
            let place = Place::InText(TextPlace(0));
            refused(rt, Refusal::NoRoom, place, need, free, framed)
        }
        Err(NotBuilt::BadTable { bad, free }) => {
            let place = Place::InTable(Holder::House, bad.at);
            refused(rt, bad.why, place, 0, free, framed)
        }
    }
}
