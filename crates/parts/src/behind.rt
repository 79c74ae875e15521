// What stands behind a part: an operator of a level, the ")" of a bracket, or the text's end.
ghost use Rattle.std.specs.Prelude.{◌≡◌, ℕ};
ghost use Rattle.arithmetic.specs.Operators.{level_of, level_number};
ghost use Rattle.parts.specs.Links.{link_at, wants};
ghost use Rattle.parts.specs.inner.Steps.{link_of, link_by_level, end_behind, part_up_to};

use crate::{Part, bad, moved_to};
use arithmetic::operators::{Level, Operator};
use paper::refusals::Refused;
use tokens::Token;

// An operator that stands behind an operand, its place, and the place behind it.
#[derive(Clone, Copy)]
pub struct Binding {
    pub operator: Operator,
    pub place: usize,
    pub next: usize,
}

// The operator behind a part that ends at a place, if one stands there, at whatever level.
fn operator_at(text: &[u8], at: usize) -> Option<Binding>
    ensures { (level : ℕ) → link_by_level level result ≡ link_at text.now level at }
{
    let behind = tokens::token_at(text, at);
    let Token::Operator(operator) = behind.token else {
        return None;
    };
    Some(Binding {
        operator,
        place: behind.place,
        next: behind.next,
    })
}

// An operator of the level that asks, where one stands behind a part that ends at a place.
pub fn binding_behind(text: &[u8], level: Level, at: usize) -> Option<Binding>
    ensures { link_of result ≡ link_at text.now (level_number level) at }
{
    let binding = operator_at(text, at)?;
    if binding.operator.level() != Some(level) {
        return None;
    }
    Some(binding)
}

// The same by a level's number, of which any can be asked for: NOT, which stands between no two operands, has 0.
pub fn operator_behind(text: &[u8], level: u8, at: usize) -> Option<Binding>
    ensures { link_of result ≡ link_at text.now level at }
{
    let binding = operator_at(text, at)?;
    if number_of(binding.operator) != level {
        return None;
    }
    Some(binding)
}

// The number of an operator's level, 0 where it has none.
fn number_of(operator: Operator) -> u8
    ensures { result ≡ level_of operator }
{
    match operator.level() {
        Some(level) => level.number(),
        None => 0,
    }
}

// What has to stand behind a part that is whole: the ")" of its bracket, or the text's end.
#[derive(Clone, Copy)]
pub enum Wanted {
    ClosingBracket,
    TextEnd,
}

fn wants_token(wanted: Wanted, token: Token) -> bool
    ensures { result ≡ wants wanted token }
{
    matches!(
        (wanted, token),
        (Wanted::ClosingBracket, Token::Close) | (Wanted::TextEnd, Token::End)
    )
}

// The place behind what is wanted behind a part that ends at a place; anything else there is refused.
pub fn end_behind(text: &[u8], wanted: Wanted, at: usize) -> Result<usize, Refused>
    ensures { result ≡ end_behind text.now wanted at }
{
    let behind = tokens::token_at(text, at);
    if wants_token(wanted, behind.token) {
        return Ok(behind.next);
    }
    Err(bad(behind.place))
}

// A part up to what is wanted behind it; anything else there is refused.
pub fn up_to(text: &[u8], part: Part, wanted: Wanted) -> Result<Part, Refused>
    ensures { result ≡ part_up_to text.now wanted part }
{
    let end = end_behind(text, wanted, part.next)?;
    Ok(moved_to(part, end))
}
