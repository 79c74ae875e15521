// References: what a reference's content stands for, a number or a variable of the tables.
#![tactic(auto)]

ghost use Rattle.std.specs.Prelude.{◌≡◌};
ghost use Rattle.variables.specs.inner.Keys.{match_as};
ghost use Rattle.lookups.specs.inner.Through.{sought_through};
ghost use Rattle.references.specs.References.{kinded, matched_as, referred_by};

use indexes::search;
use paper::GREATEST_CODE;
use paper::refusals::Refusal;
use reader::NO_LIMIT;
use records::Variable;
use records::kinds::Kind;
use variables::both::Tables;
use variables::keys::find;

// What a reference's content stands for. No Result: whoever follows a reference has one match with an arm for each of these, where a Result
// of what it means and why it means nothing would take two types and a match in a match.
#[derive(Clone, Copy)]
pub enum Referred {
    Number(u8),
    CodeOver255,
    TooBig,
    Unknown,
    Text(Variable),
    Integer(Variable),
    Macro(Variable),
}

impl From<Variable> for Referred {
    ghost from_gives = { λ v referred. referred ≡ kinded v.kind v };

    fn from(v: Variable) -> Referred {
        match v.kind {
            Kind::Text => Referred::Text(v),
            Kind::Integer => Referred::Integer(v),
            Kind::Macro => Referred::Macro(v),
        }
    }
}

// The name path. A name is sought in the keys and the index here, and not by way of a function that looks at both: that would be a call and a
// copy more for each reference.
fn as_name(content: &[u8], tables: &Tables<'_>, keys: &[u32], index: &[u8]) -> Referred
    ensures { result ≡ matched_as (match_as tables.now.farm.now tables.now.house.now (sought_through tables.now.farm.now tables.now.house.now keys.now index.now content.now)) }
{
    find(tables, keys, content)
        .or_else(|| search(tables.house, index, content))
        .map_or(Referred::Unknown, Referred::from)
}

// What the content of a reference stands for, over two tables, some keys and an index: a value becomes a byte, and over 255 it is refused;
// a number that is too big is refused too, and what else the reader refuses goes the name path.
#[tactic(auto, using(std::proofs::lemmas::Bool::Decides::nat_tests), unfolding(crate::specs::References::referred_by))]
pub fn resolve(content: &[u8], tables: &Tables<'_>, keys: &[u32], index: &[u8]) -> Referred
    ensures { result ≡ referred_by tables.now.farm.now tables.now.house.now keys.now index.now content.now }
{
    let answer = reader::read_unsigned(content, true, NO_LIMIT);
    if answer.is_err_and(|refused| refused.why == Refusal::TooBig) {
        return Referred::TooBig;
    }
    let Ok(n) = answer else {
        return as_name(content, tables, keys, index);
    };
    if n.value > GREATEST_CODE {
        return Referred::CodeOver255;
    }
    Referred::Number(n.value as u8)
}
