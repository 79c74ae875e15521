// Indexes: the places of a table's records in the order of their names. Here an entry is read and a name is searched for by halving;
// `building` makes an index.
#![tactic(auto)]

ghost use Rattle.std.specs.Prelude.{◌≡◌, ◌<◌, ◌≤◌};
ghost use Rattle.indexes.specs.inner.Halving.{place_in, halvings, nearest, count_in, searched, match_in};

pub mod building;

use paper::Holder;
use paper::bytes::byte;
use records::Variable;
use records::names::{comes_before, same_name};
use variables::MOST_RECORDS;

// The place that an entry of an index holds; past the index's end zeros are read.
#[tactic(auto, unfolding(crate::specs::inner::Halving::place_in))]
pub fn place_at(index: &[u8], entry: u32) -> u32
    ensures { (result ≡ place_in index.now entry) × (result ≤ 65535) }
{
    let at = 2 * (entry as usize);
    u32::from(u16::from_le_bytes([byte(index, at), byte(index, at + 1)]))
}

// Of some entries the last that a name does not come before, or the first where there is none. A comparison leaves half of them, so
// that 256 take eight. The contract names the halving itself, which says what is found in any bytes: `partition_point` says that only of
// entries that rise. For an index under way the slice is all the room that is lent, so `count` says how much of it is entries.
pub(crate) fn nearest(table: &[u8], index: &[u8], count: u32, name: &[u8]) -> u32
    requires { count ≤ 256 }
    ensures { (result ≡ nearest halvings table.now index.now name.now 0 count) × (0 < count → result < count) }
{
    let mut first = 0;
    let mut size = count;
    while 1 < size {
        let half = size / 2;
        let middle = first + half;
        if comes_before(name, records::name_at(table, place_at(index, middle))) {
            size = half;
        } else {
            first = middle;
            size -= half;
        }
    }
    first
}

// How many entries an index has. One of more than 256 fits no table, and none of it counts.
fn count_of(index: &[u8]) -> u32
    ensures { (result ≡ count_in index.now) × (result ≤ 256) }
{
    if 2 * MOST_RECORDS < index.len() {
        return 0;
    }
    (index.len() / 2) as u32
}

// The house's record that a name leads to through an index. Any bytes are taken for one: where it does not fit, what is found may be
// another record than the table's own look-up finds, or none, or what stands at a place where no record starts.
pub fn search(table: &[u8], index: &[u8], name: &[u8]) -> Option<Variable>
    ensures { result ≡ match_in table.now (searched table.now index.now name.now) }
{
    let count = count_of(index);
    if 0 < count {
        let place = place_at(index, nearest(table, index, count, name));
        if same_name(records::name_at(table, place), name) {
            return Some(records::variable_at(Holder::House, table, place));
        }
    }
    None
}
