// `table TABLEHEX`: whether a table is good.
use crate::answers;
use crate::answers::Place;
use crate::fields::Case;

pub(crate) fn answer(rt: &impl Print, case: Case<'_>) {
    let [table, ..] = case.bytes;
    let checked = variables::check_table(table);
    match checked {
        Ok(count) => good(rt, count),
        Err(bad) => answers::refusal(rt, bad.why, Place::Bare(bad.at.0)),
    }
}

// `ok COUNT`
fn good(rt: &impl Print, count: usize) {
    let _ = print!(rt; "ok {count}");
}
