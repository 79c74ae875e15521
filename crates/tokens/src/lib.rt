// Tokens: an operator, a number, a name, a bracket, longest first, the spaces before each ignored.
#![tactic(auto)]

ghost use Rattle.std.specs.Prelude.{◌≡◌};
ghost use Rattle.tokens.specs.declared.Token.TheVariants.{Operator as Operates};
ghost use Rattle.tokens.specs.inner.Steps.{lexeme_of};
ghost use Rattle.tokens.specs.Tokens.{lexeme, word_token, word_at, fault_of, number_at, single, from_less, from_greater, symbol_at, numeral, starting_at, token_at};

use arithmetic::operators::{Either, Operator, Product, Relation, Sum};
use paper::bytes::{ByteKind, byte, is_end, is_letter, skip};
use paper::faults::Fault;
use paper::inside::Inside;
use paper::refusals::Refusal;
use reader::NO_LIMIT;

#[derive(Clone, Copy)]
pub enum Token {
    // The text's end.
    End,
    Operator(Operator),
    Number(u32),
    // A number that the reader refuses, and where: a fault and no `Refused`, since what the definitions read (`Trees`, `Parsed`) has faults.
    FaultyNumber(Fault, usize),
    Name,
    Open,
    Close,
    // A byte that starts no token.
    Strange,
}

// A token, where it starts, and the first place behind it.
#[derive(Clone, Copy)]
pub struct Lexed {
    pub token: Token,
    pub place: usize,
    pub next: usize,
}

// The operators that are words, in capitals; every other word is a name.
#[tactic(auto, using(crate::proofs::Words::of_two, crate::proofs::Words::of_three, crate::proofs::Words::of_other, std::proofs::lemmas::Bool::Decides::nat_tests))]
fn word_token(word: &[u8]) -> Token
    ensures { result ≡ word_token word.now }
{
    match word {
        b"MOD" => Token::Operator(Operator::Product(Product::Mod)),
        b"AND" => Token::Operator(Operator::And),
        b"OR" => Token::Operator(Operator::Either(Either::Or)),
        b"EOR" => Token::Operator(Operator::Either(Either::Eor)),
        b"NOT" => Token::Operator(Operator::Not),
        _ => Token::Name,
    }
}

fn word_at(here: &Inside) -> Lexed
    ensures { lexeme_of result ≡ word_at here.now.text.now here.now.at }
{
    let next = skip(ByteKind::Word, here.text, here.at);
    Lexed {
        token: word_token(&here.text[here.at..next]),
        place: here.at,
        next,
    }
}

// The fault of a number that the reader refuses: here it has no other refusals than these three.
#[tactic(auto, using(std::proofs::lemmas::Bool::Decides::nat_tests), unfolding(crate::specs::Tokens::fault_of))]
fn fault_of(why: Refusal) -> Fault
    ensures { result ≡ fault_of why }
{
    match why {
        Refusal::NoDigit => Fault::NoDigit,
        Refusal::BadBase => Fault::BadBase,
        _ => Fault::TooBig,
    }
}

fn number_at(here: &Inside) -> Lexed
    ensures { lexeme_of result ≡ number_at here.now.text.now here.now.at }
{
    match reader::read_unsigned(&here.text[here.at..], false, NO_LIMIT) {
        Ok(n) => Lexed {
            token: Token::Number(n.value),
            place: here.at,
            next: here.at + n.end.0,
        },
        Err(refused) => Lexed {
            token: Token::FaultyNumber(fault_of(refused.why), here.at + refused.at.0),
            place: here.at,
            next: here.at,
        },
    }
}

#[tactic(auto, using(std::proofs::lemmas::Bool::Decides::nat_tests), unfolding(crate::specs::Tokens::single))]
fn single(c: u8) -> Token
    ensures { result ≡ single c }
{
    match c {
        b'(' => Token::Open,
        b')' => Token::Close,
        b'*' => Token::Operator(Operator::Product(Product::Times)),
        b'+' => Token::Operator(Operator::Sum(Sum::Plus)),
        b'-' => Token::Operator(Operator::Sum(Sum::Minus)),
        b'/' => Token::Operator(Operator::Product(Product::Over)),
        b'=' => Token::Operator(Operator::Relation(Relation::Equal)),
        _ => Token::Strange,
    }
}

fn operator_of(operator: Operator, here: &Inside, size: u8) -> Lexed
    ensures { lexeme_of result ≡ lexeme (Operates operator) here.now.at size }
{
    Lexed {
        token: Token::Operator(operator),
        place: here.at,
        next: here.at + usize::from(size),
    }
}

// The operators that start with "<", by the byte behind it.
#[tactic(auto, using(std::proofs::lemmas::Bool::Decides::nat_tests), unfolding(crate::specs::Tokens::from_less))]
fn from_less(here: &Inside, c: u8) -> Lexed
    ensures { lexeme_of result ≡ from_less here.now.at c }
{
    match c {
        b'>' => operator_of(Operator::Relation(Relation::Unequal), here, 2),
        b'=' => operator_of(Operator::Relation(Relation::AtMost), here, 2),
        b'<' => operator_of(Operator::Relation(Relation::ShiftLeft), here, 2),
        _ => operator_of(Operator::Relation(Relation::Less), here, 1),
    }
}

// The operators that start with ">", by the two bytes behind it.
#[tactic(auto, using(std::proofs::lemmas::Bool::Decides::nat_tests), unfolding(crate::specs::Tokens::from_greater))]
fn from_greater(here: &Inside, c: u8, d: u8) -> Lexed
    ensures { lexeme_of result ≡ from_greater here.now.at c d }
{
    match (c, d) {
        (b'=', _) => operator_of(Operator::Relation(Relation::AtLeast), here, 2),
        (b'>', b'>') => operator_of(Operator::Relation(Relation::ShiftRightUnsigned), here, 3),
        (b'>', _) => operator_of(Operator::Relation(Relation::ShiftRight), here, 2),
        _ => operator_of(Operator::Relation(Relation::Greater), here, 1),
    }
}

#[tactic(auto, using(std::proofs::lemmas::Bool::Decides::nat_tests), unfolding(crate::specs::Tokens::symbol_at))]
fn symbol_at(here: &Inside) -> Lexed
    ensures { lexeme_of result ≡ symbol_at here.now.text.now here.now.at }
{
    match here.byte(0) {
        b'<' => from_less(here, here.byte(1)),
        b'>' => from_greater(here, here.byte(1), here.byte(2)),
        c => Lexed {
            token: single(c),
            place: here.at,
            next: here.at + 1,
        },
    }
}

// A byte that a number starts with.
fn starts_number(c: u8) -> bool
    ensures { result ≡ numeral c }
{
    matches!(c, b'&' | b'0'..=b'9')
}

#[tactic(auto, using(std::proofs::lemmas::Bool::Decides::nat_tests, paper::proofs::Runs::goes_on_lem), unfolding(crate::specs::Tokens::starting_at))]
fn starting_at(text: &[u8], at: usize) -> Lexed
    ensures { lexeme_of result ≡ starting_at text.now at }
{
    let c = byte(text, at);
    if is_end(c) {
        return Lexed {
            token: Token::End,
            place: at,
            next: at,
        };
    }
    let here = Inside { text, at };
    if is_letter(c) {
        return word_at(&here);
    }
    if starts_number(c) {
        return number_at(&here);
    }
    symbol_at(&here)
}

// The token behind a place.
pub fn token_at(text: &[u8], at: usize) -> Lexed
    ensures { lexeme_of result ≡ token_at text.now at }
{
    starting_at(text, skip(ByteKind::Space, text, at))
}
