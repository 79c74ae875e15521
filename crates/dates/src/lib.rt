// Dates of the diaries: a five-byte time as a string, by a format.
#![tactic(auto)]

ghost use Rattle.std.specs.Prelude.{true, ◌≡◌, ◌≤◌, length, take};
ghost use Rattle.paper.specs.Layings.{laying, laid_in, converted_by};
ghost use Rattle.dates.specs.Formats.{layout_of, string, fields_of};
ghost use Rattle.dates.specs.Conversions.{answer_by, buffer_by, date_answer, date_buffer};
ghost use Rattle.dates.specs.inner.Steps.{rendered};

pub mod fields;
pub mod pieces;
mod plain;
mod render;

use calendar::moment_of;
use paper::layings::{Converted, NotWritten, claim};
use paper::refusals::Refusal;
use paper::{LONGEST, TextPlace};
use render::{BadField, FormattedMoment};
use runs::output::copy;

// A string is no longer than its format, so that of a format of so many bytes is made in a local array: the format is read once. A longer
// one is read twice, first for what is wrong with it and for the string's length.
const NEAR: usize = 64;

// The string of a time by a format, with a zero byte behind it, at the start of `buf`; or a refusal that changes nothing.
pub fn convert_date(time: &[u8], format: &[u8], buf: &mut [u8]) -> Converted
    ensures answer { result ≡ converted_by (date_answer time.now format.now (length buf.old)) }
    ensures buffer { buf.new ≡ date_buffer time.now format.now buf.old }
{
    if LONGEST < format.len() {
        return Err(refused(Refusal::OverLength, TextPlace(0), buf.len()));
    }
    let &[first, second, third, fourth, fifth] = time else {
        return Err(refused(Refusal::OverLength, TextPlace(0), buf.len()));
    };
    let moment = moment_of(u32::from_le_bytes([first, second, third, fourth]), fifth);
    let formatted = FormattedMoment { moment, format };
    if format.len() <= NEAR {
        formatted.convert_near(buf)
    } else {
        formatted.convert_far(buf)
    }
}

// A refusal beside No room: its need is 0, and all of the room is free.
fn refused(why: Refusal, at: TextPlace, room: usize) -> NotWritten
    ensures { result ≡ record { why = why; at = at; need = 0; free = room } }
{
    NotWritten {
        why,
        at,
        need: 0,
        free: room,
    }
}

// The first bytes of a short slice as a string with its zero byte, whole or not at all.
fn copy_out(near: &[u8], characters: usize, buf: &mut [u8]) -> Converted
    requires { (characters ≤ length near.now) × (length near.now ≤ 64) }
    ensures answer { result ≡ converted_by (laying (take characters near.now) true (length buf.old)) }
    ensures buffer { buf.new ≡ laid_in (take characters near.now) true buf.old }
{
    let written = claim(characters as u32, true, buf)?;
    copy(&near[..characters], 0, buf);
    Ok(written)
}

impl<'a> FormattedMoment<'a> {
    // Its string, where the format is short.
    fn convert_near(&self, buf: &mut [u8]) -> Converted
        requires { length self.now.format.now ≤ 64 }
        ensures answer { result ≡ converted_by (answer_by (fields_of (layout_of self.now.format.now)) (string self.now.moment (layout_of self.now.format.now)) (length buf.old)) }
        ensures buffer { buf.new ≡ buffer_by (fields_of (layout_of self.now.format.now)) (string self.now.moment (layout_of self.now.format.now)) buf.old }
    {
        let mut near = [0u8; NEAR];
        match self.render(false, &mut near) {
            Ok(characters) => copy_out(&near, characters, buf),
            Err(bad) => Err(refused(Refusal::BadField, bad.at, buf.len())),
        }
    }

    // Its string, by a format of any length: nothing is written before all of the format was read, and the room is known to be enough.
    fn convert_far(&self, buf: &mut [u8]) -> Converted
        ensures answer { result ≡ converted_by (answer_by (fields_of (layout_of self.now.format.now)) (string self.now.moment (layout_of self.now.format.now)) (length buf.old)) }
        ensures buffer { buf.new ≡ buffer_by (fields_of (layout_of self.now.format.now)) (string self.now.moment (layout_of self.now.format.now)) buf.old }
    {
        match self.measure() {
            Ok(characters) => self.write_out(characters, buf),
            Err(bad) => Err(refused(Refusal::BadField, bad.at, buf.len())),
        }
    }

    // What is wrong with the format, or how long the string is: it is written where there is no room.
    fn measure(&self) -> Result<usize, BadField>
        ensures { result ≡ rendered self.now.moment 0 (layout_of self.now.format.now) }
    {
        self.render(true, &mut [])
    }

    // The string with its zero byte, whole or not at all. The format was measured, and has no bad field.
    fn write_out(&self, characters: usize, buf: &mut [u8]) -> Converted
        requires { characters ≡ length (string self.now.moment (layout_of self.now.format.now)) }
        ensures answer { result ≡ converted_by (laying (string self.now.moment (layout_of self.now.format.now)) true (length buf.old)) }
        ensures buffer { buf.new ≡ laid_in (string self.now.moment (layout_of self.now.format.now)) true buf.old }
    {
        let written = claim(characters as u32, true, buf)?;
        let _ = self.render(true, buf);
        Ok(written)
    }
}
