// What a line of answer is made of. It is written to standard output piece by piece: no buffer has to be lent for it. A write that fails
// leaves a gap there, which the comparison shows.
use paper::refusals::Refusal;
use paper::{Holder, RecordPlace, TextPlace};
use std::fmt;

// A place as a line writes it: `PLACE`, or `W PLACE` where lines of its kind say what a place is counted in. An index is bad as a whole,
// and its place is its start.
#[derive(Clone, Copy)]
pub(crate) enum Place {
    Bare(usize),
    InText(TextPlace),
    InTable(Holder, RecordPlace),
    InIndex,
}

impl fmt::Display for Place {
    fn fmt<W: fmt::Write>(&self, f: &mut fmt::Formatter<W>) -> fmt::Result {
        match *self {
            Place::Bare(at) => write!(f, "{at}"),
            Place::InText(TextPlace(at)) => write!(f, "t {at}"),
            Place::InTable(Holder::Farm, RecordPlace(at)) => write!(f, "f {at}"),
            Place::InTable(Holder::House, RecordPlace(at)) => write!(f, "h {at}"),
            Place::InIndex => write!(f, "i 0"),
        }
    }
}

// Bytes in hex, or "-" for none.
#[derive(Clone, Copy)]
pub(crate) struct Hex<'a>(pub(crate) &'a [u8]);

impl<'a> fmt::Display for Hex<'a> {
    fn fmt<W: fmt::Write>(&self, f: &mut fmt::Formatter<W>) -> fmt::Result {
        if self.0.is_empty() {
            return write!(f, "-");
        }
        for byte in self.0 {
            write!(f, "{byte:02x}")?;
        }
        Ok(())
    }
}

// `no N PLACE` or `no N W PLACE`: an answer that refuses, or its start.
pub(crate) fn refusal(rt: &impl Print, why: Refusal, place: Place) {
    let number = why.number();
    let _ = print!(rt; "no {number} {place}");
}
