// Values: signed 32-bit numbers as their patterns, and what each operator makes of them.
ghost use Rattle.std.specs.Prelude.{◌≡◌, pos, int_lt, unsigned_abs};
ghost use Rattle.arithmetic.specs.Values.{signed, sum, difference, product, quotient, remainder, truth, less, at_most, shifted_left, shifted_right, shifted_right_unsigned, related, unary_value, binary_value};

use crate::operators::{Either, Operator, Product, Relation, Sum};

// All bits: the pattern of -1.
const ONES: u32 = 4294967295;

// Toward zero; the lowest number over -1 gives itself. Nothing is asked of a right side of zero: it is refused before.
fn quotient(lhs: u32, rhs: u32) -> u32
    ensures { result ≡ quotient lhs rhs }
{
    match rhs {
        0 => 0,
        ONES => lhs.wrapping_neg(),
        _ => (lhs.cast_signed() / rhs.cast_signed()).cast_unsigned(),
    }
}

// With the sign of the left side.
fn remainder(lhs: u32, rhs: u32) -> u32
    ensures { result ≡ remainder lhs rhs }
{
    match rhs {
        0 => lhs,
        ONES => 0,
        _ => (lhs.cast_signed() % rhs.cast_signed()).cast_unsigned(),
    }
}

fn truth(holds: bool) -> u32
    ensures { result ≡ truth holds }
{
    if holds { ONES } else { 0 }
}

fn less(lhs: u32, rhs: u32) -> bool
    ensures { result ≡ less lhs rhs }
{
    lhs.cast_signed() < rhs.cast_signed()
}

fn at_most(lhs: u32, rhs: u32) -> bool
    ensures { result ≡ at_most lhs rhs }
{
    lhs.cast_signed() <= rhs.cast_signed()
}

#[tactic(auto, using(std::proofs::lemmas::Bool::Decides::nat_tests), unfolding(crate::specs::Values::shifted_left))]
fn shifted_left(v: u32, by: u32) -> u32
    ensures { result ≡ shifted_left v by }
{
    if by < 32 { v << by } else { 0 }
}

#[tactic(auto, using(std::proofs::lemmas::Bool::Decides::nat_tests), unfolding(crate::specs::Values::shifted_right_unsigned))]
fn shifted_right_unsigned(v: u32, by: u32) -> u32
    ensures { result ≡ shifted_right_unsigned v by }
{
    if by < 32 { v >> by } else { 0 }
}

// The sign bit comes in from the left.
fn shifted_right(v: u32, by: u32) -> u32
    ensures { result ≡ shifted_right v by }
{
    if by < 32 {
        return (v.cast_signed() >> by).cast_unsigned();
    }
    truth(v.cast_signed() < 0)
}

// An operator before one operand.
#[tactic(auto, unfolding(crate::specs::Values::difference))]
pub fn unary(operator: Operator, v: u32) -> u32
    ensures { result ≡ unary_value operator v }
{
    match operator {
        Operator::Not => !v,
        Operator::Sum(Sum::Minus) => v.wrapping_neg(),
        Operator::Sum(Sum::Plus)
        | Operator::Product(_)
        | Operator::Relation(_)
        | Operator::And
        | Operator::Either(_) => v,
    }
}

fn related(relation: Relation, lhs: u32, rhs: u32) -> u32
    ensures { result ≡ related relation lhs rhs }
{
    match relation {
        Relation::Equal => truth(lhs == rhs),
        Relation::Unequal => truth(lhs != rhs),
        Relation::Less => truth(less(lhs, rhs)),
        Relation::Greater => truth(less(rhs, lhs)),
        Relation::AtMost => truth(at_most(lhs, rhs)),
        Relation::AtLeast => truth(at_most(rhs, lhs)),
        Relation::ShiftLeft => shifted_left(lhs, rhs),
        Relation::ShiftRight => shifted_right(lhs, rhs),
        Relation::ShiftRightUnsigned => shifted_right_unsigned(lhs, rhs),
    }
}

// An operator between two operands.
#[tactic(auto, unfolding(crate::specs::Values::sum, crate::specs::Values::difference, crate::specs::Values::product))]
pub fn binary(operator: Operator, lhs: u32, rhs: u32) -> u32
    ensures { result ≡ binary_value operator lhs rhs }
{
    match operator {
        Operator::Product(Product::Times) => lhs.wrapping_mul(rhs),
        Operator::Product(Product::Over) => quotient(lhs, rhs),
        Operator::Product(Product::Mod) => remainder(lhs, rhs),
        Operator::Sum(Sum::Plus) => lhs.wrapping_add(rhs),
        Operator::Sum(Sum::Minus) => lhs.wrapping_sub(rhs),
        Operator::Relation(relation) => related(relation, lhs, rhs),
        Operator::And => lhs & rhs,
        Operator::Either(Either::Or) => lhs | rhs,
        Operator::Either(Either::Eor) => lhs ^ rhs,
        Operator::Not => 0,
    }
}
