// The C face: every operation answers by a struct with named fields, by value, so that a refusal writes nothing anywhere.
// A field that says nothing in an answer is 0. C has the eight functions by crates/nosgoludd_c.
#![tactic(auto)]

ghost use Rattle.std.specs.Prelude.{◌≡◌, not, eqb};
ghost use Rattle.paper.specs.Answers.{counted_in};
ghost use Rattle.indexes.specs.Indexes.{given_as, given_by};

pub mod buildings;
pub mod checks;
pub mod conversions;
pub mod evaluations;
pub mod meanings;
pub mod readings;
pub mod translations;

use paper::Holder;

// What a place is counted in, by the numbers that C has for it: constants, as in include/nosgoludd.h, and no enum that would be turned into
// them at once.
pub(crate) const IN_THE_TEXT: u32 = 0;

pub(crate) const IN_THE_HOUSE: u32 = 1;

const IN_THE_FARM: u32 = 2;

pub(crate) const IN_THE_INDEX: u32 = 3;

// What a place in one of the tables is counted in. No `From`: neither C's number nor a holder is a type of this crate.
pub(crate) fn counted_in(holder: Holder) -> u32
    ensures { result ≡ counted_in holder }
{
    match holder {
        Holder::Farm => IN_THE_FARM,
        Holder::House => IN_THE_HOUSE,
    }
}

// The index that C gives beside the house's table: none at `indexed` 0, and one at every other number.
pub(crate) fn index_given<'a>(index: &'a [u8], indexed: u32) -> Option<&'a [u8]>
    ensures { given_as result ≡ given_by (not (eqb indexed 0)) index.now }
{
    (indexed != 0).then_some(index)
}

// The answer of an operation that writes into a lent buffer: the refusal's number, 0 where accepted; what the place is counted in;
// the place; the room that is enough; the room left.
#[repr(C)]
#[derive(Clone, Copy)]
pub struct NosAnswer {
    pub number: u32,
    pub counted: u32,
    pub place: usize,
    pub need: usize,
    pub free: usize,
}
