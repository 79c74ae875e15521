// One case: the form of its line says for which operation.
mod conv;
mod date;
mod eval;
mod index;
mod look;
mod read;
mod rooms;
mod table;
mod trans;

use crate::fields::{Case, FieldKind};
use crate::frame::Lent;

// A text, two tables and an index of the longest. It is an array, and no heap is used.
pub const ROOM: usize = 280000;

pub type Held = [u8; ROOM];

#[derive(Clone, Copy)]
enum Operation {
    Conv,
    Read,
    Table,
    Look,
    Trans,
    Eval,
    Date,
    Index,
    IndexLook,
    BothLook,
}

impl Operation {
    // The operation that the word of a line asks for.
    fn named(word: &[u8]) -> Option<Operation> {
        match word {
            b"conv" => Some(Operation::Conv),
            b"read" => Some(Operation::Read),
            b"table" => Some(Operation::Table),
            b"look" => Some(Operation::Look),
            b"trans" => Some(Operation::Trans),
            b"eval" => Some(Operation::Eval),
            b"date" => Some(Operation::Date),
            b"index" => Some(Operation::Index),
            b"ilook" => Some(Operation::IndexLook),
            b"flook" => Some(Operation::BothLook),
            _ => None,
        }
    }

    // What the fields behind the word have to be.
    fn fields(self) -> &'static [FieldKind] {
        use FieldKind::{Bytes, Flag, Index, Limit, Number, Room};
        match self {
            Operation::Conv => &[Number, Number, Room],
            Operation::Read => &[Bytes, Flag, Limit],
            Operation::Table => &[Bytes],
            Operation::Look => &[Bytes, Bytes, Bytes],
            Operation::Trans => &[Bytes, Bytes, Bytes, Index, Number, Number, Room],
            Operation::Eval => &[Bytes, Bytes, Bytes, Number],
            Operation::Date => &[Bytes, Bytes, Room],
            Operation::Index => &[Bytes, Room],
            Operation::IndexLook => &[Bytes, Bytes, Bytes],
            Operation::BothLook => &[Bytes, Bytes, Index, Bytes],
        }
    }
}

// The operation that a line asks for, if it is a case.
fn asked(case: Case<'_>) -> Option<Operation> {
    let operation = Operation::named(case.word())?;
    case.fits(operation.fields()).then_some(operation)
}

// Writes the answer to a line. `lent` is the buffer of an operation that writes.
pub(crate) fn answer(rt: &impl Print, line: &[u8], held: &mut Held, lent: &mut Lent) {
    run(rt, Case::new(line, held), lent);
    let _ = println!(rt);
}

// A match and no table of functions: they are lent different things. The handle that prints stands beside the case in all of them: no struct
// holds what is an `impl Print`.
fn run(rt: &impl Print, case: Case<'_>, lent: &mut Lent) {
    match asked(case) {
        Some(Operation::Conv) => conv::answer(rt, case, lent),
        Some(Operation::Read) => read::answer(rt, case),
        Some(Operation::Table) => table::answer(rt, case),
        Some(Operation::Look) => look::answer(rt, case),
        Some(Operation::Trans) => trans::answer(rt, case, lent),
        Some(Operation::Eval) => eval::answer(rt, case),
        Some(Operation::Date) => date::answer(rt, case, lent),
        Some(Operation::Index) => index::answer(rt, case, lent),
        Some(Operation::IndexLook) => look::answer_through(rt, case),
        Some(Operation::BothLook) => look::answer_in_both(rt, case),
        None => {
            let _ = print!(rt; "bad line");
        }
    }
}
