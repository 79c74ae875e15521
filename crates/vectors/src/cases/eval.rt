// `eval TEXTHEX FARMHEX HOUSEHEX ALLOWANCE`: the value of an expression over two tables.
use crate::answers;
use crate::answers::Place;
use crate::fields::Case;
use expressions::{NotEvaluated, Value};
use variables::both::Tables;

pub(crate) fn answer(rt: &impl Print, case: Case<'_>) {
    let [text, farm, house, _] = case.bytes;
    let tables = Tables { farm, house };
    let evaluated = expressions::evaluate(text, &tables, case.number(4));
    match evaluated {
        Ok(Value { pattern, end }) => value(rt, pattern, end.0),
        Err(NotEvaluated::Refused(refused)) => {
            answers::refusal(rt, refused.why, Place::InText(refused.at))
        }
        Err(NotEvaluated::BadTable(bad)) => {
            answers::refusal(rt, bad.why, Place::InTable(bad.holder, bad.at))
        }
    }
}

// `int VALUE END`
fn value(rt: &impl Print, pattern: u32, end: usize) {
    let signed = pattern.cast_signed();
    let _ = print!(rt; "int {signed} {end}");
}
