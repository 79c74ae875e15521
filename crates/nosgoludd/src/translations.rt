// A text's translation into a buffer.
ghost use Rattle.std.specs.Prelude.{◌≡◌, not, eqb, length};
ghost use Rattle.indexes.specs.Indexes.{given_by};
ghost use Rattle.gs.specs.Translations.{translated, translated_answer, out_after};
ghost use Rattle.nosgoludd.specs.Faces.{answer_face};

use crate::{IN_THE_INDEX, IN_THE_TEXT, NosAnswer, counted_in, index_given};
use gs::{NotTranslated, Translated};
use paper::refusals::Refusal;
use symbols::flags::Flags;
use variables::both::Tables;

// A translation's answer in its C form.
impl From<Result<Translated, NotTranslated>> for NosAnswer {
    ghost from_gives = { λ answer face. face ≡ answer_face (translated_answer answer) };

    fn from(answer: Result<Translated, NotTranslated>) -> NosAnswer {
        match answer {
            Ok(Translated { end, need, free }) => NosAnswer {
                number: 0,
                counted: IN_THE_TEXT,
                place: end.0,
                need,
                free,
            },
            Err(
                NotTranslated::Refused {
                    why,
                    at,
                    need,
                    free,
                },
            ) => NosAnswer {
                number: u32::from(why.number()),
                counted: IN_THE_TEXT,
                place: at.0,
                need,
                free,
            },
            Err(NotTranslated::BadTable { bad, free }) => NosAnswer {
                number: u32::from(bad.why.number()),
                counted: counted_in(bad.holder),
                place: bad.at.0,
                need: 0,
                free,
            },
            Err(NotTranslated::BadIndex { free }) => NosAnswer {
                number: u32::from(Refusal::BadIndex.number()),
                counted: IN_THE_INDEX,
                place: 0,
                need: 0,
                free,
            },
        }
    }
}

// Bits 29, 30 and 31 of `flags` are the text's flags; its other bits count for nothing. Where accepted, the place is the text's end.
pub fn nos_translate<'a>(
    text: &[u8],
    farm: &'a [u8],
    house: &'a [u8],
    index: &[u8],
    indexed: u32,
    flags: u32,
    allowance: u32,
    out: &mut [u8],
) -> NosAnswer
    ensures answer { result ≡ answer_face (translated_answer (translated text.now farm.now house.now (given_by (not (eqb indexed 0)) index.now) flags allowance (length out.old))) }
    ensures buffer { out.new ≡ out_after text.now farm.now house.now (given_by (not (eqb indexed 0)) index.now) flags allowance out.old }
{
    let tables = Tables { farm, house };
    NosAnswer::from(gs::translate(
        text,
        &tables,
        index_given(index, indexed),
        Flags::of(flags),
        allowance,
        out,
    ))
}
