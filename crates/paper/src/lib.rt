// What every chapter shares: the two kinds of place and the two tables, the refusals, a text's bytes (`bytes`) and a place inside it
// (`inside`), a string that is laid into a buffer, sets of small numbers (`bits`), and the allowance.
#![tactic(auto)]

ghost use Rattle.std.specs.Prelude.{◌≡◌, cond, ◌≤◌};

pub mod allowance;
pub mod bits;
pub mod bytes;
pub mod faults;
pub mod inside;
pub mod layings;
pub mod refusals;

// A place in a text, counted in bytes from its start.
#[derive(Clone, Copy, PartialEq, Eq)]
pub struct TextPlace(pub usize);

// The place of a record in a table of variables: where its mark starts, counted in bytes from the table's start.
#[derive(Clone, Copy, PartialEq, Eq)]
pub struct RecordPlace(pub usize);

// The two tables of variables: the farm's own is looked in before the house's. Beside a record's place it says in which of them that is
// counted.
#[derive(Clone, Copy, PartialEq, Eq)]
pub enum Holder {
    Farm,
    House,
}

// The longest text or table that is read, in bytes.
pub const LONGEST: usize = 65535;

// The greatest number that a reference in a text can have: what it gives is one byte.
pub const GREATEST_CODE: u32 = 255;

// A number to be summed, and no branch: `usize::from`, under the name that the theorem `Determined` of `promises` knows.
pub fn one_if(present: bool) -> usize
    ensures { (result ≡ cond present 1 0) × (result ≤ 1) }
{
    usize::from(present)
}
