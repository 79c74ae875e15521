// What a name means in the two tables.
ghost use Rattle.std.specs.Prelude.{◌≡◌, not, eqb, ◌≤◌};
ghost use Rattle.paper.specs.Refusals.{refusal_number};
ghost use Rattle.indexes.specs.Indexes.{given_by};
ghost use Rattle.lookups.specs.Lookups.{found_length, looked_up};
ghost use Rattle.nosgoludd.specs.Faces.{found_face};

use crate::{IN_THE_INDEX, IN_THE_TEXT, counted_in, index_given};
use lookups::NotGood;
use paper::refusals::Refusal;
use records::Variable;
use variables::both::Tables;

// The refusal's number, 0 where the name is known; what the place is counted in; the record's place; its kind; the length of its value
// and where that starts in that table.
#[repr(C)]
#[derive(Clone, Copy)]
pub struct NosVariable {
    pub number: u32,
    pub counted: u32,
    pub place: usize,
    pub kind: u32,
    pub length: u32,
    pub start: usize,
}

// A refusal in the place of a variable.
fn refused(why: Refusal, counted: u32, place: usize) -> NosVariable
    ensures { result ≡ record { number = refusal_number why; counted = counted; place = place; kind = 0; length = 0; start = 0 } }
{
    NosVariable {
        number: u32::from(why.number()),
        counted,
        place,
        kind: 0,
        length: 0,
        start: 0,
    }
}

// A look-up's answer in its C form. No `From`, which asks nothing: a value's length has to be a byte here.
fn face(answer: Result<Option<Variable>, NotGood>) -> NosVariable
    requires { found_length answer ≤ 255 }
    ensures { result ≡ found_face answer }
{
    match answer {
        Ok(Some(v)) => NosVariable {
            number: 0,
            counted: counted_in(v.holder),
            place: v.at.0,
            kind: u32::from(v.kind.number()),
            length: v.length as u32,
            start: v.start,
        },
        Ok(None) => refused(Refusal::UnknownName, IN_THE_TEXT, 0),
        Err(NotGood::Table(bad)) => refused(bad.why, counted_in(bad.holder), bad.at.0),
        Err(NotGood::Index) => refused(Refusal::BadIndex, IN_THE_INDEX, 0),
    }
}

// An unknown name's place is the name's start.
pub fn nos_look_up<'a>(
    name: &[u8],
    farm: &'a [u8],
    house: &'a [u8],
    index: &[u8],
    indexed: u32,
) -> NosVariable
    ensures { result ≡ found_face (looked_up farm.now house.now (given_by (not (eqb indexed 0)) index.now) name.now) }
{
    let tables = Tables { farm, house };
    face(lookups::look_up(&tables, index_given(index, indexed), name))
}
