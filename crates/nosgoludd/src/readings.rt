// A number out of a text.
ghost use Rattle.std.specs.Prelude.{◌≡◌, not, eqb};
ghost use Rattle.reader.specs.Reading.{reading};
ghost use Rattle.nosgoludd.specs.Faces.{reading_face};

use paper::refusals::Refused;
use reader::Number;

// The refusal's number, 0 where a value was read; the value; the place, which is the first byte not read where accepted.
#[repr(C)]
#[derive(Clone, Copy)]
pub struct NosNumber {
    pub number: u32,
    pub value: u32,
    pub place: usize,
}

// A reading's answer in its C form.
impl From<Result<Number, Refused>> for NosNumber {
    ghost from_gives = { λ answer face. face ≡ reading_face answer };

    fn from(answer: Result<Number, Refused>) -> NosNumber {
        match answer {
            Ok(n) => NosNumber {
                number: 0,
                value: n.value,
                place: n.end.0,
            },
            Err(refused) => NosNumber {
                number: u32::from(refused.why.number()),
                value: 0,
                place: refused.at.0,
            },
        }
    }
}

// Whole is off at 0 and on at every other number; a limit of 4294967295 refuses nothing.
pub fn nos_read_unsigned(text: &[u8], whole: u32, limit: u32) -> NosNumber
    ensures { result ≡ reading_face (reading text.now (not (eqb whole 0)) limit) }
{
    NosNumber::from(reader::read_unsigned(text, whole != 0, limit))
}
