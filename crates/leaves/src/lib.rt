// Leaves of an expression: a number, and a name that is looked up in the tables.
#![tactic(auto)]

ghost use Rattle.std.specs.Prelude.{◌≡◌};
ghost use Rattle.leaves.specs.Leaves.{number_part, looked_up, named_part};

use paper::refusals::Refusal;
use parts::{Account, Outcome, Part, Valued, refused};
use records::integers::pattern_of;
use records::kinds::Kind;
use variables::both::Tables;
use variables::keys::find;

// A number spends nothing.
pub fn number(pattern: u32, next: usize, account: Account) -> Part
    ensures { result ≡ number_part pattern next account }
{
    Part {
        outcome: account.map(|left| Valued { pattern, left }),
        next,
    }
}

// A name must be known, and an integer variable; then it spends one look-up. Behind a refusal no name is looked up any more.
fn looked_up(
    name: &[u8],
    tables: &Tables<'_>,
    keys: &[u32],
    place: usize,
    account: Account,
) -> Outcome
    ensures { result ≡ looked_up tables.now.farm.now tables.now.house.now keys.now name.now place account }
{
    let left = account?;
    let Some(v) = find(tables, keys, name) else {
        return Err(refused(Refusal::UnknownName, place));
    };
    match v.kind {
        Kind::Text | Kind::Macro => Err(refused(Refusal::NotAnInteger, place)),
        Kind::Integer if left == 0 => Err(refused(Refusal::AllowanceSpent, place)),
        Kind::Integer => Ok(Valued {
            pattern: pattern_of(tables.value_of(v)),
            left: left - 1,
        }),
    }
}

// Any keys are gone by, as `find` does. A name that is refused is a part all the same.
pub fn named(
    name: &[u8],
    tables: &Tables<'_>,
    keys: &[u32],
    place: usize,
    next: usize,
    account: Account,
) -> Part
    ensures { result ≡ named_part tables.now.farm.now tables.now.house.now keys.now name.now place next account }
{
    let outcome = looked_up(name, tables, keys, place, account);
    Part { outcome, next }
}
