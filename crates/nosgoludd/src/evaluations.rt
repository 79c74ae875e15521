// An expression's value.
ghost use Rattle.std.specs.Prelude.{◌≡◌};
ghost use Rattle.expressions.specs.Answers.{evaluated};
ghost use Rattle.nosgoludd.specs.Faces.{evaluation_face};

use crate::{IN_THE_TEXT, counted_in};
use expressions::{NotEvaluated, Value};
use variables::both::Tables;

// The refusal's number, 0 where accepted; what the place is counted in; the place, which is the text's end where accepted; the value.
#[repr(C)]
#[derive(Clone, Copy)]
pub struct NosValue {
    pub number: u32,
    pub counted: u32,
    pub place: usize,
    pub value: i32,
}

// An evaluation's answer in its C form.
impl From<Result<Value, NotEvaluated>> for NosValue {
    ghost from_gives = { λ answer face. face ≡ evaluation_face answer };

    #[tactic(auto, using(arithmetic::proofs::Signs::cast_again), unfolding(arithmetic::specs::Values::signed))]
    fn from(answer: Result<Value, NotEvaluated>) -> NosValue {
        match answer {
            Ok(value) => NosValue {
                number: 0,
                counted: IN_THE_TEXT,
                place: value.end.0,
                value: value.pattern.cast_signed(),
            },
            Err(NotEvaluated::Refused(refused)) => NosValue {
                number: u32::from(refused.why.number()),
                counted: IN_THE_TEXT,
                place: refused.at.0,
                value: 0,
            },
            Err(NotEvaluated::BadTable(bad)) => NosValue {
                number: u32::from(bad.why.number()),
                counted: counted_in(bad.holder),
                place: bad.at.0,
                value: 0,
            },
        }
    }
}

pub fn nos_evaluate<'a>(text: &[u8], farm: &'a [u8], house: &'a [u8], allowance: u32) -> NosValue
    ensures { result ≡ evaluation_face (evaluated text.now farm.now house.now allowance) }
{
    let tables = Tables { farm, house };
    NosValue::from(expressions::evaluate(text, &tables, allowance))
}
