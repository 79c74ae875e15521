// One function for each level of precedence, as the rules have it. Each reads the operands one level tighter, with its own operators
// between them from the left; the tightest is the operand, which calls the loosest level back for a bracket. The five bodies are not
// one function that is passed the tighter level: a closure in a cycle of calls has to repeat its callee's contract, and is no shorter.
ghost use Rattle.std.specs.Prelude.{◌≡◌};
ghost use Rattle.variables.specs.inner.Keys.{Keys};
ghost use Rattle.variables.specs.Names.{names_of};
ghost use Rattle.expressions.specs.Trees.{level_at, operand_at};
ghost use Rattle.expressions.specs.inner.Steps.{part_of};

use arithmetic::operators::Level;
use paper::refusals::{Refusal, Refused};
use parts::behind::{Wanted, binding_behind, end_behind};
use parts::{Account, Part, bad, covered, joined, moved_to, refused, too_deep};
use tokens::Token;
use variables::both::Tables;

// A text over two good tables, and the keys by which its names are looked up in them.
#[derive(Clone, Copy)]
pub(crate) struct Source<'a> {
    pub text: &'a [u8],
    pub tables: Tables<'a>,
    pub keys: &'a [u32],
    ghost own: { Keys tables.farm.now tables.house.now keys.now },
}

// A number, a name, a bracket, or an operator before an operand. `levels` more unary operators and brackets may stand over it.
#[cycle(conjunction_disjunction_operand_relation_sum_term)]
fn operand(source: &Source<'_>, levels: u8, at: usize, account: Account) -> Result<Part, Refused>
    ensures { result ≡ part_of (names_of source.now.tables.farm.now source.now.tables.house.now) account (operand_at source.now.text.now levels at) }
{
    let first = tokens::token_at(source.text, at);
    let place = first.place;
    let next = first.next;
    match first.token {
        Token::Number(pattern) => Ok(leaves::number(pattern, next, account)),
        Token::FaultyNumber(fault, digit) => Err(refused(Refusal::from(fault), digit)),
        Token::Name => {
            let name = &source.text[place..next];
            Ok(leaves::named(name, &source.tables, source.keys, place, next, account))
        }
        Token::Operator(operator) => {
            if !operator.stands_alone() {
                return Err(bad(place));
            }
            if levels == 0 {
                return Err(too_deep(place));
            }
            let inner = operand(source, levels - 1, next, account)?;
            Ok(covered(operator, inner))
        }
        Token::Open => {
            if levels == 0 {
                return Err(too_deep(place));
            }
            let inner = disjunction(source, levels - 1, next, account)?;
            let end = end_behind(source.text, Wanted::ClosingBracket, inner.next)?;
            Ok(moved_to(inner, end))
        }
        Token::End | Token::Close | Token::Strange => Err(bad(place)),
    }
}

// * / MOD
#[cycle(conjunction_disjunction_operand_relation_sum_term)]
fn term(source: &Source<'_>, levels: u8, at: usize, account: Account) -> Result<Part, Refused>
    ensures { result ≡ part_of (names_of source.now.tables.farm.now source.now.tables.house.now) account (level_at source.now.text.now 1 (operand_at source.now.text.now levels) at) }
{
    let mut lhs = operand(source, levels, at, account)?;
    while let Some(binding) = binding_behind(source.text, Level::Term, lhs.next) {
        let rhs = operand(source, levels, binding.next, lhs.account())?;
        lhs = joined(binding, lhs, rhs);
    }
    Ok(lhs)
}

// + -
#[cycle(conjunction_disjunction_operand_relation_sum_term)]
fn sum(source: &Source<'_>, levels: u8, at: usize, account: Account) -> Result<Part, Refused>
    ensures { result ≡ part_of (names_of source.now.tables.farm.now source.now.tables.house.now) account (level_at source.now.text.now 2 (operand_at source.now.text.now levels) at) }
{
    let mut lhs = term(source, levels, at, account)?;
    while let Some(binding) = binding_behind(source.text, Level::Sum, lhs.next) {
        let rhs = term(source, levels, binding.next, lhs.account())?;
        lhs = joined(binding, lhs, rhs);
    }
    Ok(lhs)
}

// = <> < > <= >= << >> >>>
#[cycle(conjunction_disjunction_operand_relation_sum_term)]
fn relation(source: &Source<'_>, levels: u8, at: usize, account: Account) -> Result<Part, Refused>
    ensures { result ≡ part_of (names_of source.now.tables.farm.now source.now.tables.house.now) account (level_at source.now.text.now 3 (operand_at source.now.text.now levels) at) }
{
    let mut lhs = sum(source, levels, at, account)?;
    while let Some(binding) = binding_behind(source.text, Level::Relation, lhs.next) {
        let rhs = sum(source, levels, binding.next, lhs.account())?;
        lhs = joined(binding, lhs, rhs);
    }
    Ok(lhs)
}

// AND
#[cycle(conjunction_disjunction_operand_relation_sum_term)]
fn conjunction(
    source: &Source<'_>,
    levels: u8,
    at: usize,
    account: Account,
) -> Result<Part, Refused>
    ensures { result ≡ part_of (names_of source.now.tables.farm.now source.now.tables.house.now) account (level_at source.now.text.now 4 (operand_at source.now.text.now levels) at) }
{
    let mut lhs = relation(source, levels, at, account)?;
    while let Some(binding) = binding_behind(source.text, Level::Conjunction, lhs.next) {
        let rhs = relation(source, levels, binding.next, lhs.account())?;
        lhs = joined(binding, lhs, rhs);
    }
    Ok(lhs)
}

// OR EOR
#[cycle(conjunction_disjunction_operand_relation_sum_term)]
pub(crate) fn disjunction(
    source: &Source<'_>,
    levels: u8,
    at: usize,
    account: Account,
) -> Result<Part, Refused>
    ensures { result ≡ part_of (names_of source.now.tables.farm.now source.now.tables.house.now) account (level_at source.now.text.now 5 (operand_at source.now.text.now levels) at) }
{
    let mut lhs = conjunction(source, levels, at, account)?;
    while let Some(binding) = binding_behind(source.text, Level::Disjunction, lhs.next) {
        let rhs = conjunction(source, levels, binding.next, lhs.account())?;
        lhs = joined(binding, lhs, rhs);
    }
    Ok(lhs)
}
