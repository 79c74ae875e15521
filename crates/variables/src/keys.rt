// The keys of tables' records: a line for each, with the record's place, a mark of the table that holds it and a key of its name. A
// look-up goes over the lines, the first of them in blocks, and comes to a table only where the keys are equal: it does not follow the
// records' lengths, and compares few names. Place, holder and key lie in one `u32` and in no struct: so sixteen lines are compared at once.
ghost use Rattle.std.specs.Prelude.{◌≡◌, ◌&&◌, ◌/◌, ◌%◌, ◌≤◌, eqb};
ghost use Rattle.variables.specs.Holdings.{held_by};
ghost use Rattle.variables.specs.inner.Keys.{mark_of, holder_of, line_of, record_by, sought_by, match_as};
ghost use Rattle.records.specs.Records.{same_name, entry_at};
ghost use Rattle.records.specs.Kinds.{variable_at};

use crate::blocks::blocks_without;
use crate::both::Tables;
use paper::Holder;
use records::Variable;
use records::names::{key_of, same_name};

// The bit of a line that only the farm's have.
const FARM_MARK: u32 = 32768;

fn mark_of(holder: Holder) -> u32
    ensures { (result ≡ mark_of holder) × (result ≤ 32768) }
{
    match holder {
        Holder::Farm => FARM_MARK,
        Holder::House => 0,
    }
}

// The line of the record at a place of one of the tables.
pub(crate) fn line_at(holder: Holder, table: &[u8], place: u32) -> u32
    requires { place ≤ 65535 }
    ensures { result ≡ line_of holder (entry_at table.now place) }
{
    let key = key_of(records::name_at(table, place));
    65536 * place + mark_of(holder) + key
}

fn place_in(line: u32) -> u32
    ensures { result ≡ line / 65536 }
{
    line / 65536
}

fn holder_of(line: u32) -> Holder
    ensures { result ≡ holder_of line }
{
    if line % 65536 < FARM_MARK {
        return Holder::House;
    }
    Holder::Farm
}

// Whether a line's record has a name of this key.
fn is_named(tables: &Tables<'_>, line: u32, key: u32, name: &[u8]) -> bool
    ensures { result ≡ (eqb (line % 32768) key && same_name (record_by tables.now.farm.now tables.now.house.now line).name name.now) }
{
    if line % 32768 == key {
        let table = tables.held_by(holder_of(line));
        return same_name(records::name_at(table, place_in(line)), name);
    }
    false
}

fn variable_of(tables: &Tables<'_>, line: u32) -> Variable
    ensures { result ≡ variable_at (holder_of line) (held_by (holder_of line) tables.now.farm.now tables.now.house.now) (record_by tables.now.farm.now tables.now.house.now line) }
{
    let holder = holder_of(line);
    records::variable_at(holder, tables.held_by(holder), place_in(line))
}

// The first record with a name, among those of some keys of two tables. Any lines are gone through: a place that is not a record's is
// read as if it were one. The blocks get the keys as a part, though it is all of them: handed on as they are, they would come here by
// their place in memory, and every caller's frame would be larger, those of 17 levels of an expression too.
pub fn find(tables: &Tables<'_>, keys: &[u32], name: &[u8]) -> Option<Variable>
    ensures { result ≡ match_as tables.now.farm.now tables.now.house.now (sought_by tables.now.farm.now tables.now.house.now keys.now name.now) }
{
    let key = key_of(name);
    let passed = blocks_without(&keys[0..], key);
    for line in &keys[passed..] {
        if is_named(tables, *line, key, name) {
            return Some(variable_of(tables, *line));
        }
    }
    None
}
