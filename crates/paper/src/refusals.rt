// The refusals: each has a number of its own, by which C and the paper know it.
ghost use Rattle.std.specs.Prelude.{◌≡◌};
ghost use Rattle.paper.specs.Refusals.{refusal_number, refusal_by};

use crate::faults::Fault;
use crate::{Holder, RecordPlace, TextPlace};

// In the order of their numbers, from 1 on.
#[derive(Clone, Copy, PartialEq, Eq)]
pub enum Refusal {
    NoRoom,
    NoDigit,
    BadBase,
    TooBig,
    NotEnded,
    OverLimit,
    BadCode,
    BadString,
    BadReference,
    UnknownName,
    TooDeep,
    AllowanceSpent,
    BadTable,
    UnknownCall,
    BadExpression,
    ZeroDivisor,
    NotAnInteger,
    OverLength,
    BadField,
    BadIndex,
    CodeOver255,
}

impl Refusal {
    pub fn number(self) -> u8
        ensures { result ≡ refusal_number self }
    {
        match self {
            Refusal::NoRoom => 1,
            Refusal::NoDigit => 2,
            Refusal::BadBase => 3,
            Refusal::TooBig => 4,
            Refusal::NotEnded => 5,
            Refusal::OverLimit => 6,
            Refusal::BadCode => 7,
            Refusal::BadString => 8,
            Refusal::BadReference => 9,
            Refusal::UnknownName => 10,
            Refusal::TooDeep => 11,
            Refusal::AllowanceSpent => 12,
            Refusal::BadTable => 13,
            Refusal::UnknownCall => 14,
            Refusal::BadExpression => 15,
            Refusal::ZeroDivisor => 16,
            Refusal::NotAnInteger => 17,
            Refusal::OverLength => 18,
            Refusal::BadField => 19,
            Refusal::BadIndex => 20,
            Refusal::CodeOver255 => 21,
        }
    }
}

impl From<Fault> for Refusal {
    ghost from_gives = { λ fault refusal. refusal ≡ refusal_by fault };

    fn from(fault: Fault) -> Refusal {
        match fault {
            Fault::NoDigit => Refusal::NoDigit,
            Fault::BadBase => Refusal::BadBase,
            Fault::TooBig => Refusal::TooBig,
            Fault::BadCode => Refusal::BadCode,
            Fault::BadString => Refusal::BadString,
            Fault::BadReference => Refusal::BadReference,
            Fault::UnknownName => Refusal::UnknownName,
            Fault::TooDeep => Refusal::TooDeep,
            Fault::BadExpression => Refusal::BadExpression,
            Fault::ZeroDivisor => Refusal::ZeroDivisor,
            Fault::NotAnInteger => Refusal::NotAnInteger,
            Fault::CodeOver255 => Refusal::CodeOver255,
        }
    }
}

// What a text is refused for, and the place of it in the text.
#[derive(Clone, Copy, PartialEq, Eq)]
pub struct Refused {
    pub why: Refusal,
    pub at: TextPlace,
}

// What a table is refused for, and the place of the record that is bad.
#[derive(Clone, Copy, PartialEq, Eq)]
pub struct BadTable {
    pub why: Refusal,
    pub at: RecordPlace,
}

// The same of one of the two tables.
#[derive(Clone, Copy, PartialEq, Eq)]
pub struct BadTableOf {
    pub why: Refusal,
    pub holder: Holder,
    pub at: RecordPlace,
}
