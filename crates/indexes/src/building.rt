// Building an index: record after record is put among those before it, at the place that halving finds.
ghost use Rattle.std.specs.Result.{result_map_both};
ghost use Rattle.std.specs.Prelude.{◌≡◌, ℕ, ◌+◌, ◌*◌, ◌<◌, ◌≤◌, ◌++◌, length, drop, Ok};
ghost use Rattle.records.specs.Records.{name_at};
ghost use Rattle.variables.specs.Tables.{checked};
ghost use Rattle.indexes.specs.declared.building.NotBuilt.TheVariants as NotBuilt;
ghost use Rattle.indexes.specs.Indexes.{index_of};
ghost use Rattle.indexes.specs.Buildings.{built, index_after};
ghost use Rattle.indexes.specs.inner.Halving.{name_in, slot_in, gap_in, with_entry};

use crate::{nearest, place_at};
use paper::refusals::BadTable;
use records::names::comes_before;
use variables::check_table;

// The bytes written, and the room left.
#[derive(Clone, Copy, PartialEq, Eq)]
pub struct Built {
    pub need: usize,
    pub free: usize,
}

// Why no index is built. Nothing is written then.
#[derive(Clone, Copy, PartialEq, Eq)]
pub enum NotBuilt {
    // The bytes that are needed, and the room that there is.
    NoRoom { need: usize, free: usize },
    // The table is not good.
    BadTable { bad: BadTable, free: usize },
}

// How many records a good table has.
fn record_count(table: &[u8], room: usize) -> Result<usize, NotBuilt>
    ensures { result ≡ result_map_both (λ count. count) (λ bad. NotBuilt.BadTable bad room) (checked table.now) }
{
    check_table(table).map_err(|bad| NotBuilt::BadTable { bad, free: room })
}

// The index of a table at the start of `out`: whole, or not at all.
pub fn build_index(table: &[u8], out: &mut [u8]) -> Result<Built, NotBuilt>
    ensures answer { result ≡ built table.now (length out.old) }
    ensures buffer { out.new ≡ index_after table.now out.old }
{
    let room = out.len();
    let count = record_count(table, room)?;
    let need = 2 * count;
    if room < need {
        return Err(NotBuilt::NoRoom { need, free: room });
    }
    lay_records(table, out);
    Ok(Built {
        need,
        free: room - need,
    })
}

// The records of a good table, each put among those before it. No iterator of places: it would be a type with a law of its own, and the
// walk would still have its count, and the index that it lays.
fn lay_records(table: &[u8], out: &mut [u8])
    requires { (count : ℕ) × (checked table.now ≡ Ok count) × (2 * count ≤ length out.old) }
    ensures { out.new ≡ index_of table.now ++ drop (length (index_of table.now)) out.old }
{
    let mut count: u32 = 0;
    let mut place = 0;
    while place < table.len() {
        let at = place as u32;
        insert(table, out, count, at);
        place = records::next_place(table, at);
        count += 1;
    }
}

// One more entry among so many. A count stands beside the bytes: the index under way lies at the start of the lent room, and as a slice of
// its own it would have to be lent anew for each record.
fn insert(table: &[u8], out: &mut [u8], count: u32, place: u32)
    requires { (count < 256) × (2 * count + 2 ≤ length out.old) × (place ≤ 65535) }
    ensures { out.new ≡ with_entry (slot_in table.now out.old count (name_at table.now place)) count place out.old }
{
    let slot = slot_in(table, &out[0..], count, records::name_at(table, place));
    let at = 2 * (slot as usize);
    open_gap(out, at, 2 * (count as usize));
    let bytes = (place as u16).to_le_bytes();
    out[at] = bytes[0];
    out[at + 1] = bytes[1];
}

// Where a name goes among so many entries.
fn slot_in(table: &[u8], index: &[u8], count: u32, name: &[u8]) -> u32
    requires { count ≤ 256 }
    ensures { (result ≡ slot_in table.now index.now count name.now) × (result ≤ count) }
{
    if count == 0 {
        return 0;
    }
    let near = nearest(table, index, count, name);
    if comes_before(name, records::name_at(table, place_at(index, near))) {
        return near;
    }
    near + 1
}

// Two bytes of room at a place: what stands between it and `end` goes up by two, the last byte first. No `copy_within`, of which the compiler
// makes a call of C's `memmove`: an archive for C needs nothing of the C library but `memcpy` and `memset` (include/nosgoludd.h).
fn open_gap(out: &mut [u8], from: usize, end: usize)
    requires { (from ≤ end) × (end + 2 ≤ length out.old) }
    ensures { out.new ≡ gap_in from end out.old }
{
    let mut at = end;
    while from < at {
        out[at + 1] = out[at - 1];
        at -= 1;
    }
}
