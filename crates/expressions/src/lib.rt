// Expressions: a text of numbers, names, operators and brackets, evaluated whole or refused.
#![tactic(auto)]

ghost use Rattle.std.specs.Prelude.{◌≡◌};
ghost use Rattle.paper.specs.Traces.{run};
ghost use Rattle.expressions.specs.Answers.{reading_of, value_in, evaluated_by, evaluated};
ghost use Rattle.expressions.specs.declared.NotEvaluated.TheVariants as NotEvaluated;

mod levels;

use levels::Source;
use paper::refusals::{BadTableOf, Refusal, Refused};
use paper::{LONGEST, TextPlace};
use parts::behind::{Wanted, up_to};
use parts::refused;
use variables::both;
use variables::both::Tables;

// The value of an expression as a signed 32-bit number's pattern, and the place of the text's end.
#[derive(Clone, Copy, PartialEq, Eq)]
pub struct Value {
    pub pattern: u32,
    pub end: TextPlace,
}

// Why an expression has no value.
#[derive(Clone, Copy, PartialEq, Eq)]
pub enum NotEvaluated {
    Refused(Refused),
    // A table is not good.
    BadTable(BadTableOf),
}

impl From<Refused> for NotEvaluated {
    ghost from_gives = { λ refused not. not ≡ NotEvaluated.Refused refused };

    fn from(refused: Refused) -> NotEvaluated {
        NotEvaluated::Refused(refused)
    }
}

impl From<BadTableOf> for NotEvaluated {
    ghost from_gives = { λ bad not. not ≡ NotEvaluated.BadTable bad };

    fn from(bad: BadTableOf) -> NotEvaluated {
        NotEvaluated::BadTable(bad)
    }
}

// How many unary operators and brackets may stand over one operand.
const LEVELS: u8 = 16;

// A refusal of the syntax comes before every refusal of the evaluation.
fn evaluate_over(source: &Source<'_>, left: u32) -> Result<Value, NotEvaluated>
    ensures { result ≡ evaluated_by (run (reading_of source.now.text.now source.now.tables.farm.now source.now.tables.house.now) left) (value_in source.now.text.now source.now.tables.farm.now source.now.tables.house.now) }
{
    let part = levels::disjunction(source, LEVELS, 0, Ok(left))?;
    let whole = up_to(source.text, part, Wanted::TextEnd)?;
    let valued = whole.outcome?;
    Ok(Value {
        pattern: valued.pattern,
        end: TextPlace(whole.next),
    })
}

// The value of an expression, its names those of integer variables of the farm's table and the house's.
#[tactic(auto, using(crate::proofs::Orders::too_long))]
pub fn evaluate(text: &[u8], tables: &Tables<'_>, allowance: u32) -> Result<Value, NotEvaluated>
    ensures { result ≡ evaluated text.now tables.now.farm.now tables.now.house.now allowance }
{
    if LONGEST < text.len() {
        return Err(refused(Refusal::OverLength, 0).into());
    }
    let mut keys = both::NO_KEYS;
    let count = both::key_tables(tables, &mut keys)?;
    let source = Source {
        text,
        tables: *tables,
        keys: &keys[..count],
    };
    evaluate_over(&source, paper::allowance::cap(allowance))
}
