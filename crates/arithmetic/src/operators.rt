// The operators of expressions, by how tightly they bind, and which stand before one operand.
ghost use Rattle.std.specs.Prelude.{◌≡◌};
ghost use Rattle.arithmetic.specs.Operators.{level_of, level_number, number_of, stands_alone, divides};

#[derive(Clone, Copy)]
pub enum Product {
    Times,
    Over,
    Mod,
}

#[derive(Clone, Copy)]
pub enum Sum {
    Plus,
    Minus,
}

#[derive(Clone, Copy)]
pub enum Relation {
    Equal,
    Unequal,
    Less,
    Greater,
    AtMost,
    AtLeast,
    ShiftLeft,
    ShiftRight,
    ShiftRightUnsigned,
}

#[derive(Clone, Copy)]
pub enum Either {
    Or,
    Eor,
}

// The levels of the operators between two operands, the tightest first.
#[derive(Clone, Copy, PartialEq, Eq)]
pub enum Level {
    Term,
    Sum,
    Relation,
    Conjunction,
    Disjunction,
}

#[derive(Clone, Copy)]
pub enum Operator {
    Not,
    Product(Product),
    Sum(Sum),
    Relation(Relation),
    And,
    Either(Either),
}

impl Level {
    // 1 for the tightest.
    pub fn number(self) -> u8
        ensures { result ≡ level_number self }
    {
        match self {
            Level::Term => 1,
            Level::Sum => 2,
            Level::Relation => 3,
            Level::Conjunction => 4,
            Level::Disjunction => 5,
        }
    }
}

impl Operator {
    // The level at which an operator stands between two operands; NOT stands between none.
    pub fn level(self) -> Option<Level>
        ensures { number_of result ≡ level_of self }
    {
        match self {
            Operator::Not => None,
            Operator::Product(_) => Some(Level::Term),
            Operator::Sum(_) => Some(Level::Sum),
            Operator::Relation(_) => Some(Level::Relation),
            Operator::And => Some(Level::Conjunction),
            Operator::Either(_) => Some(Level::Disjunction),
        }
    }

    // NOT, unary minus and plus.
    pub fn stands_alone(self) -> bool
        ensures { result ≡ stands_alone self }
    {
        match self {
            Operator::Not | Operator::Sum(_) => true,
            Operator::Product(_) | Operator::Relation(_) | Operator::And | Operator::Either(_) =>
                false,
        }
    }

    // Those that a right side of zero is refused under.
    pub fn divides(self) -> bool
        ensures { result ≡ divides self }
    {
        match self {
            Operator::Product(Product::Over | Product::Mod) => true,
            Operator::Product(Product::Times)
            | Operator::Not
            | Operator::Sum(_)
            | Operator::Relation(_)
            | Operator::And
            | Operator::Either(_) => false,
        }
    }
}
