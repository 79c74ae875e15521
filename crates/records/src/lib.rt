// One record of a table, by the place where its mark starts: its parts, and whether it has a record's shape. Beside it the names of
// records (`names`), their kinds (`kinds`), and the values of integers (`integers`).
//
// Any place can be asked for: past the slice's end zeros are read. A place is a `u32`, so that with a record's lengths it makes no sum
// that a `usize` cannot hold. A table and a place go side by side: `Determined` of `promises` has four of these functions, of both.
#![tactic(auto)]

ghost use Rattle.std.specs.Prelude.{◌≡◌, ◌≤◌, get_or, take, drop};
ghost use Rattle.records.specs.Records.{name_at, next_place, fitting, headed, sized, shaped, entry_at};
ghost use Rattle.records.specs.Kinds.{variable_at};

pub mod integers;
pub mod kinds;
pub mod names;

use kinds::Kind;
use names::all_name_bytes;
use paper::bytes::byte;
use paper::{Holder, RecordPlace};

// A variable: its record's place, the table that holds it, its kind, and where its value lies in that table.
#[derive(Clone, Copy)]
pub struct Variable {
    pub at: RecordPlace,
    pub holder: Holder,
    pub kind: Kind,
    pub start: usize,
    pub length: usize,
}

// A byte that is a length, 0 past the slice's end.
fn length_at(table: &[u8], at: usize) -> usize
    ensures { (result ≡ get_or table.now at 0) × (result ≤ 255) }
{
    byte(table, at) as usize
}

// The part of so many bytes from a place on, as far as it lies inside the slice.
pub fn part<'a>(table: &'a [u8], start: usize, length: usize) -> &'a [u8]
    ensures { result.now ≡ take length (drop start table.now) }
{
    let rest = &table[start.min(table.len())..];
    &rest[..length.min(rest.len())]
}

#[tactic(auto, unfolding(crate::specs::Records::name_at))]
pub fn name_at<'a>(table: &'a [u8], place: u32) -> &'a [u8]
    ensures { result.now ≡ name_at table.now place }
{
    let at = place as usize;
    part(table, at + 5, length_at(table, at + 3))
}

// Where the next record starts.
pub fn next_place(table: &[u8], place: u32) -> usize
    ensures { result ≡ next_place table.now place }
{
    let at = place as usize;
    at + 5 + length_at(table, at + 3) + length_at(table, at + 4)
}

// The variable at a place of a table that is the farm's, or the house's.
#[tactic(auto, unfolding(crate::specs::Records::entry_at))]
pub fn variable_at(holder: Holder, table: &[u8], place: u32) -> Variable
    ensures { result ≡ variable_at holder table.now (entry_at table.now place) }
{
    let at = place as usize;
    let kind = Kind::from(byte(table, at + 2));
    Variable {
        at: RecordPlace(at),
        holder,
        kind,
        start: at + 5 + length_at(table, at + 3),
        length: length_at(table, at + 4),
    }
}

// The mark, and a kind that there is. The byte is compared, and no Kind made of it: one above 2, which is no kind, is told apart here.
#[tactic(auto, unfolding(crate::specs::Records::headed), using(std::proofs::lemmas::Bool::Decides::nat_tests))]
fn is_headed(table: &[u8], place: u32) -> bool
    ensures { result ≡ headed table.now place }
{
    let at = place as usize;
    byte(table, at) == b'V' && byte(table, at + 1) == b'R' && byte(table, at + 2) <= 2
}

// An integer has four bytes; other kinds have any number of them. The kind is the record's byte still, which may stand for none.
#[tactic(auto, unfolding(crate::specs::Records::fitting), using(std::proofs::lemmas::Bool::Decides::nat_tests))]
fn fits_kind(kind: u8, length: usize) -> bool
    ensures { result ≡ fitting kind length }
{
    kind != 1 || length == 4
}

// The lengths of the name and of the value, and an end inside the slice.
#[tactic(auto, unfolding(crate::specs::Records::sized), using(std::proofs::lemmas::Bool::Decides::nat_tests))]
fn is_sized(table: &[u8], place: u32) -> bool
    ensures { result ≡ sized table.now place }
{
    let at = place as usize;
    let name = length_at(table, at + 3);
    1 <= name
        && name <= 32
        && fits_kind(byte(table, at + 2), length_at(table, at + 4))
        && next_place(table, place) <= table.len()
}

pub fn is_shaped(table: &[u8], place: u32) -> bool
    ensures { result ≡ shaped table.now place }
{
    is_headed(table, place) && is_sized(table, place) && all_name_bytes(name_at(table, place))
}
