// `look FARMHEX HOUSEHEX NAMEHEX`: what a name means in two tables. `flook FARMHEX HOUSEHEX INDEX NAMEHEX`: the same with the house's index,
// or `x` where none is given. `ilook TABLEHEX INDEXHEX NAMEHEX`: the same in one table alone, the house's.
use crate::answers;
use crate::answers::{Hex, Place};
use crate::fields::Case;
use lookups::NotGood;
use paper::refusals::Refusal;
use records::Variable;
use variables::both::Tables;

pub(crate) fn answer(rt: &impl Print, case: Case<'_>) {
    let [farm, house, name, _] = case.bytes;
    answer_in(rt, &Tables { farm, house }, None, name, true)
}

pub(crate) fn answer_in_both(rt: &impl Print, case: Case<'_>) {
    let [farm, house, index, name] = case.bytes;
    let index = case.is_given(3).then_some(index);
    answer_in(rt, &Tables { farm, house }, index, name, true)
}

// One table has no letter in `rec PLACE KIND VALUEHEX`.
pub(crate) fn answer_through(rt: &impl Print, case: Case<'_>) {
    let [table, index, name, _] = case.bytes;
    let tables = Tables {
        farm: &table[..0],
        house: table,
    };
    answer_in(rt, &tables, Some(index), name, false)
}

// `lettered` is whether a record's line says in which table it stands.
fn answer_in(
    rt: &impl Print,
    tables: &Tables<'_>,
    index: Option<&[u8]>,
    name: &[u8],
    lettered: bool,
) {
    match lookups::look_up(tables, index, name) {
        Ok(Some(v)) => {
            let value = lookups::look_up_value(tables, index, name);
            record(rt, v, value, lettered)
        }
        Ok(None) => unknown(rt),
        Err(NotGood::Table(bad)) => {
            answers::refusal(rt, bad.why, Place::InTable(bad.holder, bad.at))
        }
        Err(NotGood::Index) => answers::refusal(rt, Refusal::BadIndex, Place::InIndex),
    }
}

// `rec W PLACE KIND VALUEHEX`
fn record(rt: &impl Print, v: Variable, value: &[u8], lettered: bool) {
    let place = if lettered {
        Place::InTable(v.holder, v.at)
    } else {
        Place::Bare(v.at.0)
    };
    let kind = v.kind.number();
    let value = Hex(value);
    let _ = print!(rt; "rec {place} {kind} {value}");
}

fn unknown(rt: &impl Print) {
    let _ = print!(rt; "none");
}
