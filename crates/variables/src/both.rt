// Two tables, the farm's own before the house's: are they good, the lines by which names are looked up in them, and the values of
// variables.
ghost use Rattle.std.specs.Prelude.{◌≡◌, ◌+◌, ◌≤◌, length, Ok};
ghost use Rattle.paper.specs.Refusals.{longest};
ghost use Rattle.paper.specs.declared.Holder.TheVariants.{House};
ghost use Rattle.paper.specs.declared.refusals.Refusal.TheVariants.{OverLength};
ghost use Rattle.variables.specs.Tables.{most, scan};
ghost use Rattle.variables.specs.Holdings.{held_by, part_of};
ghost use Rattle.variables.specs.Judgements.{bad_table_at, scanned_then, behind_own, scanned_both, judged};
ghost use Rattle.variables.specs.inner.Keys.{laid_over, passed_lines, both_lines, judged_lines};

use crate::{MOST_RECORDS, scan};
use paper::refusals::{BadTable, BadTableOf, Refusal};
use paper::{Holder, LONGEST, RecordPlace};
use records::Variable;

// The farm's table and the house's.
#[derive(Clone, Copy)]
pub struct Tables<'a> {
    pub farm: &'a [u8],
    pub house: &'a [u8],
}

impl<'a> Tables<'a> {
    // That one of the two that holds something.
    pub(crate) fn held_by(&self, holder: Holder) -> &'a [u8]
        ensures { result.now ≡ held_by holder self.now.farm.now self.now.house.now }
    {
        match holder {
            Holder::Farm => self.farm,
            Holder::House => self.house,
        }
    }

    // The value of a variable that was found in these tables, as a part of the one that holds it. Of other tables it is what lies at that
    // place, cut at the slice's end.
    pub fn value_of(&self, v: Variable) -> &'a [u8]
        ensures { result.now ≡ part_of self.now.farm.now self.now.house.now v }
    {
        records::part(self.held_by(v.holder), v.start, v.length)
    }
}

// The most records that both tables may have.
const MOST_LINES: usize = 2 * MOST_RECORDS;

// A line for each of them. No heap: the lines lie in the caller's array, and what is laid in it is its first part, so a count stands beside.
pub type Keys = [u32; MOST_LINES];

// No line: what a judgement is lent.
pub const NO_KEYS: Keys = [0; MOST_LINES];

fn too_long(holder: Holder) -> Result<usize, BadTableOf>
    ensures { result ≡ bad_table_at OverLength holder 0 }
{
    Err(BadTableOf {
        why: Refusal::OverLength,
        holder,
        at: RecordPlace(0),
    })
}

// What a scan found, and of which table.
fn told_of(holder: Holder, scanned: Result<usize, BadTable>) -> Result<usize, BadTableOf>
    ensures { result ≡ scanned_then holder scanned Ok }
{
    scanned.map_err(|bad| BadTableOf {
        why: bad.why,
        holder,
        at: bad.at,
    })
}

// How many records both have, or the table that is not good and the place in it; and in `keys` the lines of the records that it found
// good, for look-ups; what is behind them stays. The lengths of both tables are tested before the records of either are. This is no
// operation: the array is its caller's own, so that it is not copied.
#[tactic(auto, using(std::proofs::lemmas::Bool::Decides::nat_tests), unfolding(crate::specs::Judgements::judged))]
pub fn key_tables(tables: &Tables<'_>, keys: &mut Keys) -> Result<usize, BadTableOf>
    ensures answer { result ≡ judged tables.now.farm.now tables.now.house.now }
    ensures keys { keys.new ≡ laid_over (judged_lines tables.now.farm.now tables.now.house.now) keys.old }
{
    if LONGEST < tables.farm.len() {
        return too_long(Holder::Farm);
    }
    if LONGEST < tables.house.len() {
        return too_long(Holder::House);
    }
    scan_both(tables, keys)
}

// The records of both, the lines of the house's behind those of the farm's.
fn scan_both(tables: &Tables<'_>, keys: &mut [u32]) -> Result<usize, BadTableOf>
    requires { (length tables.now.farm.now ≤ longest) × (length tables.now.house.now ≤ longest) × (length keys.old ≡ most + most) }
    ensures answer { result ≡ scanned_both tables.now.farm.now tables.now.house.now }
    ensures keys { keys.new ≡ laid_over (both_lines tables.now.farm.now tables.now.house.now) keys.old }
{
    let own = told_of(Holder::Farm, scan(Holder::Farm, tables.farm, keys))?;
    scan_house(own, tables.house, &mut keys[own..])
}

// The house's records, where the farm's table is good and has so many.
fn scan_house(own: usize, house: &[u8], keys: &mut [u32]) -> Result<usize, BadTableOf>
    requires { (own ≤ most) × (length house.now ≤ longest) × (most ≤ length keys.old) }
    ensures answer { result ≡ scanned_then House (scan house.now) (behind_own own) }
    ensures keys { keys.new ≡ laid_over (passed_lines House house.now (scan house.now)) keys.old }
{
    let count = told_of(Holder::House, scan(Holder::House, house, keys))?;
    Ok(own + count)
}
