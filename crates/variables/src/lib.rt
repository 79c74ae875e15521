// Variables: is a table good (here), are two of them, and where does a variable's value lie (`both`), the keys that look-ups go by (`keys`),
// the lines that a look-up passes over (`blocks`), and the notes that spare a check most of its look-ups (`notes`).
#![tactic(auto)]

ghost use Rattle.std.specs.Prelude.{◌≡◌, ◌≤◌, length};
ghost use Rattle.paper.specs.Refusals.{longest};
ghost use Rattle.variables.specs.Tables.{bad_table_at, is_new, sound, scan, most, checked};
ghost use Rattle.variables.specs.inner.Keys.{laid_over, passed_lines};
ghost use Rattle.variables.specs.inner.Notes.{Earlier};

mod blocks;
pub mod both;
pub mod keys;
mod notes;

use both::Tables;
use keys::{find, line_at};
use notes::{Notes, is_noted, note};
use paper::refusals::{BadTable, Refusal};
use paper::{Holder, LONGEST, RecordPlace};

// The most records that a table may have.
pub const MOST_RECORDS: usize = 256;

fn bad_table(why: Refusal, place: usize) -> Result<usize, BadTable>
    ensures { result ≡ bad_table_at why place }
{
    Err(BadTable {
        why,
        at: RecordPlace(place),
    })
}

// The number of a good table's records, or the first refusal. The length is tested before the records are.
#[tactic(auto, using(std::proofs::lemmas::Bool::Decides::nat_tests), unfolding(crate::specs::Tables::checked))]
pub fn check_table(table: &[u8]) -> Result<usize, BadTable>
    ensures { result ≡ checked table.now }
{
    if LONGEST < table.len() {
        return bad_table(Refusal::OverLength, 0);
    }
    let mut keys = [0u32; MOST_RECORDS];
    scan(Holder::House, table, &mut keys)
}

// The records one behind the other, up to the first bad one, and their lines. An empty table, as many a farm's is, needs no notes. The
// next place is cast to a `u32` and back so that the compiler knows that every place is one, and keeps one register for `place` and `at`.
// No `for`: the next place is known only when the record there is read. No type for a short table: one would be built at two places alone,
// in `check_table` and in `both::key_tables`, and what takes it is inner.
pub(crate) fn scan(holder: Holder, table: &[u8], keys: &mut [u32]) -> Result<usize, BadTable>
    requires { (length table.now ≤ longest) × (most ≤ length keys.old) }
    ensures answer { result ≡ scan table.now }
    ensures keys { keys.new ≡ laid_over (passed_lines holder table.now result) keys.old }
{
    if table.len() == 0 {
        return Ok(0);
    }
    let mut notes = Notes::none();
    let mut count = 0;
    let mut place = 0;
    while place < table.len() {
        if count == MOST_RECORDS {
            return bad_table(Refusal::BadTable, place);
        }
        let at = place as u32;
        let line = line_at(holder, table, at);
        if !is_sound(table, &keys[0..count], &notes, line, at) {
            return bad_table(Refusal::BadTable, place);
        }
        keys[count] = line;
        note(&mut notes, line);
        let next = records::next_place(table, at) as u32;
        place = next as usize;
        count += 1;
    }
    Ok(count)
}

fn is_sound(table: &[u8], keys: &[u32], notes: &Notes, line: u32, place: u32) -> bool
    requires { Earlier table.now place keys.now notes.now line }
    ensures { result ≡ sound table.now place }
{
    if records::is_shaped(table, place) {
        return is_new(table, keys, notes, line, place);
    }
    false
}

// Whether no record before this one has an equal name. A look-up tells, and is made only where the notes leave that open. All lines are
// of one table, so both are that one here.
fn is_new(table: &[u8], keys: &[u32], notes: &Notes, line: u32, place: u32) -> bool
    requires { Earlier table.now place keys.now notes.now line }
    ensures { result ≡ is_new table.now place }
{
    if is_noted(notes, line) {
        let tables = Tables {
            farm: table,
            house: table,
        };
        return find(&tables, keys, records::name_at(table, place)).is_none();
    }
    true
}
