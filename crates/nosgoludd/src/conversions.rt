// A number or a date into a buffer.
ghost use Rattle.std.specs.Prelude.{◌≡◌, length};
ghost use Rattle.paper.specs.Layings.{converted_answer};
ghost use Rattle.numbers.specs.Conversions.{answer_of, buffer_of};
ghost use Rattle.dates.specs.Conversions.{date_answer, date_buffer};
ghost use Rattle.nosgoludd.specs.Faces.{answer_face};

use crate::{IN_THE_TEXT, NosAnswer};
use paper::layings::Converted;

// A conversion's answer in its C form. Where accepted, the place is the string's end: the offset of the zero byte that a terminated string
// has behind it.
impl From<Converted> for NosAnswer {
    ghost from_gives = { λ answer face. face ≡ answer_face (converted_answer answer) };

    fn from(answer: Converted) -> NosAnswer {
        match answer {
            Ok(written) => NosAnswer {
                number: 0,
                counted: IN_THE_TEXT,
                place: written.offset,
                need: written.need,
                free: written.free,
            },
            Err(refused) => NosAnswer {
                number: u32::from(refused.why.number()),
                counted: IN_THE_TEXT,
                place: refused.at.0,
                need: refused.need,
                free: refused.free,
            },
        }
    }
}

pub fn nos_convert(call: u32, value: u32, buf: &mut [u8]) -> NosAnswer
    ensures answer { result ≡ answer_face (answer_of call value (length buf.old)) }
    ensures buffer { buf.new ≡ buffer_of call value buf.old }
{
    NosAnswer::from(numbers::convert(call, value, buf))
}

// A five-byte time by a format. The place of a refusal is counted in the format.
pub fn nos_convert_date(time: &[u8], format: &[u8], buf: &mut [u8]) -> NosAnswer
    ensures answer { result ≡ answer_face (date_answer time.now format.now (length buf.old)) }
    ensures buffer { buf.new ≡ date_buffer time.now format.now buf.old }
{
    NosAnswer::from(dates::convert_date(time, format, buf))
}
