// Look-ups: what a name means in two tables, with or without an index beside the house's. The judgement of a table with its index is in
// `fitting`.
#![tactic(auto)]

ghost use Rattle.std.specs.Prelude.{◌≡◌};
ghost use Rattle.variables.specs.Judgements.{judged};
ghost use Rattle.variables.specs.inner.Keys.{laid_over, judged_lines, match_as};
ghost use Rattle.indexes.specs.Indexes.{«given_index», given_as, fits};
ghost use Rattle.lookups.specs.Lookups.{looked_up, value_part};
ghost use Rattle.lookups.specs.inner.Through.{serves, to_lay, bytes_given, judged_by, lines_of, sought_through};
ghost use Rattle.lookups.specs.declared.NotGood.TheVariants as NotGood;

mod fitting;

use fitting::serves;
use indexes::search;
use paper::LONGEST;
use paper::refusals::BadTableOf;
use records::Variable;
use variables::both::{Keys, Tables};
use variables::{both, keys};

// What is not good of what look-ups go through.
#[derive(Clone, Copy, PartialEq, Eq)]
pub enum NotGood {
    // One of the tables.
    Table(BadTableOf),
    // The index: it is not the house table's.
    Index,
}

impl From<BadTableOf> for NotGood {
    ghost from_gives = { λ bad why. why ≡ NotGood.Table bad };

    fn from(bad: BadTableOf) -> NotGood {
        NotGood::Table(bad)
    }
}

// The judgement of the tables and the index: how many lines there are in `keys` by which names are looked up; what is behind them stays.
// This is no operation: the array is its caller's own, so that it is not copied.
pub fn judge(tables: &Tables<'_>, index: Option<&[u8]>, keys: &mut Keys) -> Result<usize, NotGood>
    ensures answer { result ≡ judged_by (judged tables.now.farm.now tables.now.house.now) (fits (given_as index.entry) tables.now.house.now) (lines_of (judged tables.now.farm.now (to_lay tables.now.house.now (given_as index.entry)))) }
    ensures keys { keys.new ≡ laid_over (judged_lines tables.now.farm.now (to_lay tables.now.house.now (given_as index.entry))) keys.old }
{
    match index {
        Some(index) => judge_through(tables, index, keys),
        None => Ok(both::key_tables(tables, keys)?),
    }
}

// The same with an index. Where it serves, the farm's lines are all that look-ups need, and the house's table was judged with its index, at
// once. Where it does not, the check of both tables tells whether one of them is bad.
fn judge_through(tables: &Tables<'_>, index: &[u8], keys: &mut Keys) -> Result<usize, NotGood>
    ensures answer { result ≡ judged_by (judged tables.now.farm.now tables.now.house.now) (fits («given_index» index.now) tables.now.house.now) (lines_of (judged tables.now.farm.now (to_lay tables.now.house.now («given_index» index.now)))) }
    ensures keys { keys.new ≡ laid_over (judged_lines tables.now.farm.now (to_lay tables.now.house.now («given_index» index.now))) keys.old }
{
    if is_served(tables.house, index) {
        let farm_alone = Tables {
            farm: tables.farm,
            house: &tables.house[0..0],
        };
        return Ok(both::key_tables(&farm_alone, keys)?);
    }
    both::key_tables(tables, keys)?;
    Err(NotGood::Index)
}

// Whether the house's table is good and an index fits it. A table that is too long is not good.
fn is_served(house: &[u8], index: &[u8]) -> bool
    ensures { result ≡ serves house.now index.now }
{
    if LONGEST < house.len() {
        return false;
    }
    serves(house, index)
}

// The bytes that look-ups go by: none where no index is given. An empty slice and no Option: `Determined` of `promises` has this function
// and `find` (`bytes_given`, `find_through`).
pub fn bytes_given<'a>(index: Option<&'a [u8]>) -> &'a [u8]
    ensures { result.now ≡ bytes_given (given_as index.entry) }
{
    index.unwrap_or(&[])
}

// The first record with a name, among those of some keys of two tables, or the house's that an index leads to. Any lines and bytes are
// gone through.
pub fn find(tables: &Tables<'_>, keys: &[u32], index: &[u8], name: &[u8]) -> Option<Variable>
    ensures { result ≡ match_as tables.now.farm.now tables.now.house.now (sought_through tables.now.farm.now tables.now.house.now keys.now index.now name.now) }
{
    keys::find(tables, keys, name).or_else(|| search(tables.house, index, name))
}

// What a name means in any bytes, if anything: tables that are not good are refused first, then an index that does not fit.
pub fn look_up(
    tables: &Tables<'_>,
    index: Option<&[u8]>,
    name: &[u8],
) -> Result<Option<Variable>, NotGood>
    ensures { result ≡ looked_up tables.now.farm.now tables.now.house.now (given_as index.entry) name.now }
{
    let mut keys = both::NO_KEYS;
    let count = judge(tables, index, &mut keys)?;
    Ok(find(tables, &keys[..count], bytes_given(index), name))
}

// The value that a name has, as that part of whichever table holds it; an empty part where the name is unknown, or where a table or the
// index is refused. `look_up` tells these apart from an empty value.
pub fn look_up_value<'a>(tables: &Tables<'a>, index: Option<&[u8]>, name: &[u8]) -> &'a [u8]
    ensures { result.now ≡ value_part tables.now.farm.now tables.now.house.now (looked_up tables.now.farm.now tables.now.house.now (given_as index.entry) name.now) }
{
    let Ok(Some(v)) = look_up(tables, index, name) else {
        return &tables.house[..0];
    };
    tables.value_of(v)
}
