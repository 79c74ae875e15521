// The fields of a case's line, by their number from 0 on, which is its word. One space stands before each of them but the first.
use crate::cases::Held;
use crate::{frame, hex};
use reader::NO_LIMIT;

// How many hex digits a field has at most: two for each of 70,000 bytes.
const MOST_DIGITS: usize = 140000;

// Stands for no limit, or for no bytes.
const DASH: &[u8] = b"-";

// Stands for an index that is not given.
const NOT_GIVEN: &[u8] = b"x";

// What a field behind the word can be. `Room` is a number of bytes that can be lent.
#[derive(Clone, Copy)]
pub(crate) enum FieldKind {
    Number,
    Flag,
    Room,
    Limit,
    Bytes,
    Index,
}

impl FieldKind {
    fn has(self, field: &[u8]) -> bool {
        match self {
            FieldKind::Number => value(field).is_some(),
            FieldKind::Flag => value(field).is_some_and(|n| n <= 1),
            FieldKind::Room => value(field).is_some_and(|n| n as usize <= frame::MOST),
            FieldKind::Limit => field == DASH || value(field).is_some(),
            FieldKind::Bytes => is_bytes(field),
            FieldKind::Index => field == NOT_GIVEN || is_bytes(field),
        }
    }
}

// A line, and the bytes that its first four fields behind the word give in hex, which are all that can: where these are something else, no
// operation looks at what they gave.
#[derive(Clone, Copy)]
pub(crate) struct Case<'a> {
    line: &'a [u8],
    pub(crate) bytes: [&'a [u8]; 4],
}

impl<'a> Case<'a> {
    pub(crate) fn new(line: &'a [u8], held: &'a mut Held) -> Case<'a> {
        let (first, rest) = unpack(field(line, 1), held);
        let (second, rest) = unpack(field(line, 2), rest);
        let (third, rest) = unpack(field(line, 3), rest);
        let (fourth, _) = unpack(field(line, 4), rest);
        let bytes = [first, second, third, fourth];
        Case { line, bytes }
    }

    pub(crate) fn word(&self) -> &'a [u8] {
        field(self.line, 0)
    }

    // A field that is a number; "-" stands for NO_LIMIT.
    pub(crate) fn number(&self, index: usize) -> u32 {
        value(field(self.line, index)).unwrap_or(NO_LIMIT)
    }

    // Whether a field that may be "x" is something else.
    pub(crate) fn is_given(&self, index: usize) -> bool {
        field(self.line, index) != NOT_GIVEN
    }

    // Whether the fields behind the word are of these kinds, one of each.
    pub(crate) fn fits(&self, kinds: &[FieldKind]) -> bool {
        let line = self.line;
        line.split(|b| *b == b' ').count() == kinds.len() + 1
            && line
                .split(|b| *b == b' ')
                .skip(1)
                .zip(kinds)
                .all(|(field, kind)| kind.has(field))
    }
}

// A field of a line; an empty one where the line has none of this number.
fn field(line: &[u8], index: usize) -> &[u8] {
    line.split(|b| *b == b' ').nth(index).unwrap_or(&[])
}

fn is_bytes(field: &[u8]) -> bool {
    field == DASH || !field.is_empty() && field.len() <= MOST_DIGITS && hex::is_pairs(field)
}

// What a decimal number is worth, if the field is one and 32 bits hold it. No `parse`, which takes a plus sign before the digits.
fn value(field: &[u8]) -> Option<u32> {
    if field.is_empty() {
        return None;
    }
    let mut value = 0u32;
    for c in field {
        let digit = char::from(*c).to_digit(10)?;
        value = value.checked_mul(10)?.checked_add(digit)?;
    }
    Some(value)
}

// Puts the bytes of a field in hex at the start of `into`, and gives them and the rest of it. Where the field is something else, they mean
// nothing.
fn unpack<'a>(field: &[u8], into: &'a mut [u8]) -> (&'a [u8], &'a mut [u8]) {
    let (pairs, _) = field.as_chunks::<2>();
    let count = pairs.len().min(into.len());
    let (bytes, rest) = into.split_at_mut(count);
    for (byte, [high, low]) in bytes.iter_mut().zip(pairs) {
        *byte = hex::byte_of(*high, *low).unwrap_or(0);
    }
    (bytes, rest)
}
