// A table and an index, judged together and at once: one walk over the records' shapes, one along the index. Where there are as many entries
// as records, each entry is a record's place and each name comes before the next, no name stands twice and the index is the table's: that is
// cheaper to see than that the table is good without an index.
ghost use Rattle.std.specs.Prelude.{◌≡◌, true, false, ℕ, ◌||◌, ◌*◌, ◌≤◌, length, IfSome};
ghost use Rattle.paper.specs.Refusals.{longest};
ghost use Rattle.variables.specs.Tables.{records_of};
ghost use Rattle.lookups.specs.inner.Fitting.{marked, starts_one, shaped_in, Rises};
ghost use Rattle.lookups.specs.inner.Through.{serves};

use indexes::place_at;
use paper::bits::Bits;
use records::names::comes_before;
use variables::MOST_RECORDS;

// A bit for each place that a table can have, so that it is told at once whether a record starts there.
type Marks = Bits<2048>;

// Whether a table is good and an index fits it.
pub(crate) fn serves(house: &[u8], index: &[u8]) -> bool
    requires { length house.now ≤ longest }
    ensures { result ≡ serves house.now index.now }
{
    let mut marks = Marks::none();
    let Some(count) = mark_records(house, &mut marks) else {
        return false;
    };
    if index.len() != 2 * count {
        return false;
    }
    rises(house, &marks, index, count as u32)
}

// The number of a table's records where all have a record's shape and they are not too many, and then a mark of each. No iterator of
// places: it would be a type with a law of its own, and the walk would still have its count and its marks.
fn mark_records(table: &[u8], marks: &mut Marks) -> Option<usize>
    requires { length table.now ≤ longest }
    ensures count { result ≡ shaped_in table.now }
    ensures marks { IfSome result (λ _. (place : ℕ) → marked marks.new place ≡ (starts_one (records_of table.now) place || marked marks.old place)) }
{
    let mut count = 0;
    let mut place = 0;
    while place < table.len() {
        if count == MOST_RECORDS {
            return None;
        }
        let at = place as u32;
        if !records::is_shaped(table, at) {
            return None;
        }
        marks.insert(at);
        place = records::next_place(table, at);
        count += 1;
    }
    Some(count)
}

// Whether each of so many entries is a marked place, and each name comes before the next.
fn rises(table: &[u8], marks: &Marks, index: &[u8], count: u32) -> bool
    requires { length index.now ≡ 2 * count }
    ensures { (result ≡ true → Rises table.now marks.now index.now count) × (result ≡ false → Rises table.now marks.now index.now count → ⊥) }
{
    if count == 0 {
        return true;
    }
    let mut last = place_at(index, 0);
    if !marks.has(last) {
        return false;
    }
    for entry in 1..count {
        let place = place_at(index, entry);
        if !marks.has(place) {
            return false;
        }
        if !comes_before(
            records::name_at(table, last),
            records::name_at(table, place),
        ) {
            return false;
        }
        last = place;
    }
    true
}
