// A table's index, built into a buffer.
ghost use Rattle.std.specs.Prelude.{◌≡◌, length};
ghost use Rattle.indexes.specs.Buildings.{built, built_answer, index_after};
ghost use Rattle.nosgoludd.specs.Faces.{answer_face};

use crate::{IN_THE_HOUSE, IN_THE_TEXT, NosAnswer};
use indexes::building::{Built, NotBuilt, build_index};
use paper::refusals::Refusal;

// A building's answer in its C form.
impl From<Result<Built, NotBuilt>> for NosAnswer {
    ghost from_gives = { λ answer face. face ≡ answer_face (built_answer answer) };

    fn from(answer: Result<Built, NotBuilt>) -> NosAnswer {
        match answer {
            Ok(built) => NosAnswer {
                number: 0,
                counted: IN_THE_TEXT,
                place: 0,
                need: built.need,
                free: built.free,
            },
            Err(NotBuilt::NoRoom { need, free }) => NosAnswer {
                number: u32::from(Refusal::NoRoom.number()),
                counted: IN_THE_TEXT,
                place: 0,
                need,
                free,
            },
            Err(NotBuilt::BadTable { bad, free }) => NosAnswer {
                number: u32::from(bad.why.number()),
                counted: IN_THE_HOUSE,
                place: bad.at.0,
                need: 0,
                free,
            },
        }
    }
}

// The place is 0 but where the table is refused, and is then counted in it: the one table is the house's.
pub fn nos_build_index(table: &[u8], out: &mut [u8]) -> NosAnswer
    ensures answer { result ≡ answer_face (built_answer (built table.now (length out.old))) }
    ensures buffer { out.new ≡ index_after table.now out.old }
{
    NosAnswer::from(build_index(table, out))
}
