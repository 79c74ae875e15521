// The pieces of a format: bytes that are copied, percent signs and fields.
ghost use Rattle.std.specs.Prelude.{◌≡◌, ◌≤◌, length};
ghost use Rattle.paper.specs.Refusals.{longest};
ghost use Rattle.dates.specs.Fields.{field_named};
ghost use Rattle.dates.specs.Formats.{behind_percent, piece_at};

use crate::fields::Field;
use paper::bytes::byte;

#[derive(Clone, Copy)]
pub enum Piece {
    // A zero byte, or the slice's end.
    End,
    // A byte that stands for itself.
    Copied(u8),
    // Two percent signs, which give one.
    Percent,
    // A percent sign and a field's two characters.
    Shown(Field),
    // A percent sign with anything else behind it: a piece and no error, so that one match of `render` meets all five.
    Bad,
}

// The field that two characters name, the first being the high byte: one number, which the compiler tells apart by comparisons. Of a match of
// both characters it made a jump by the first, and a format of percent signs took four times as long, one of fields up to 1.8 times.
#[tactic(auto, unfolding(crate::specs::Fields::field_named, crate::specs::Fields::date_field))]
fn field_named(name: u32) -> Option<Field>
    ensures { result ≡ field_named name }
{
    match name {
        0x4353 => Some(Field::Hundredths),
        0x5345 => Some(Field::Seconds),
        0x4D49 => Some(Field::Minutes),
        0x3234 => Some(Field::Hours),
        0x4459 => Some(Field::Day),
        0x4D4E => Some(Field::Month),
        0x4D33 => Some(Field::MonthName),
        0x4345 => Some(Field::Century),
        0x5952 => Some(Field::Year),
        0x444E => Some(Field::DayOfYear),
        0x5733 => Some(Field::WeekdayName),
        _ => None,
    }
}

// What a percent sign with two bytes behind it stands for.
fn behind_percent(a: u8, b: u8) -> Piece
    ensures { result ≡ behind_percent a b }
{
    if a == b'%' {
        return Piece::Percent;
    }
    match field_named(256 * u32::from(a) + u32::from(b)) {
        Some(field) => Piece::Shown(field),
        None => Piece::Bad,
    }
}

// The piece at a place of a format.
#[tactic(auto, using(crate::proofs::Layouts::inside), unfolding(crate::specs::Formats::piece_at))]
pub(crate) fn piece_at(format: &[u8], at: usize) -> Piece
    requires { length format.now ≤ longest }
    ensures { result ≡ piece_at format.now at }
{
    let c = byte(format, at);
    if c == 0 {
        return Piece::End;
    }
    if c == b'%' {
        return behind_percent(byte(format, at + 1), byte(format, at + 2));
    }
    Piece::Copied(c)
}
