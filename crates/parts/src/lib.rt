// Parts of an expression, read and evaluated in one pass. A refusal of the syntax ends the reading. One of the evaluation lies in its part,
// where it waits until the syntax is known to be good.
#![tactic(auto)]

ghost use Rattle.std.specs.Prelude.{◌≡◌};
ghost use Rattle.paper.specs.Refusals.{refusal_by};
ghost use Rattle.paper.specs.declared.faults.Fault.TheVariants as Fault;
ghost use Rattle.parts.specs.inner.Steps.{refused_at, account_of, moved_to, covered_part, applied_outcome, joined_outcome, joined_part};

pub mod behind;

use arithmetic::operators::Operator;
use arithmetic::values;
use behind::Binding;
use paper::TextPlace;
use paper::faults::Fault;
use paper::refusals::{Refusal, Refused};

// How the evaluation stands: the look-ups that are left, or the first refusal that it met.
pub type Account = Result<u32, Refused>;

// A 32-bit pattern, and the look-ups left behind it.
#[derive(Clone, Copy)]
pub struct Valued {
    pub pattern: u32,
    pub left: u32,
}

pub type Outcome = Result<Valued, Refused>;

// What a part was evaluated to, and the first place behind it.
#[derive(Clone, Copy)]
pub struct Part {
    pub outcome: Outcome,
    pub next: usize,
}

pub fn refused(why: Refusal, place: usize) -> Refused
    ensures { result ≡ refused_at why place }
{
    Refused {
        why,
        at: TextPlace(place),
    }
}

// More than 16 unary operators and brackets over one operand.
pub fn too_deep(place: usize) -> Refused
    ensures { result ≡ refused_at (refusal_by Fault.TooDeep) place }
{
    refused(Refusal::from(Fault::TooDeep), place)
}

// What no expression has at its place.
pub fn bad(place: usize) -> Refused
    ensures { result ≡ refused_at (refusal_by Fault.BadExpression) place }
{
    refused(Refusal::from(Fault::BadExpression), place)
}

// The same part, up to another place.
pub fn moved_to(part: Part, next: usize) -> Part
    ensures { result ≡ moved_to next part }
{
    Part { next, ..part }
}

impl Part {
    // How the evaluation stands behind a part.
    pub fn account(self) -> Account
        ensures { result ≡ account_of self.outcome }
    {
        self.outcome.map(|valued| valued.left)
    }
}

// An operator before one operand.
pub fn covered(operator: Operator, part: Part) -> Part
    ensures { result ≡ covered_part operator part }
{
    let outcome = part.outcome.map(|valued| Valued {
        pattern: values::unary(operator, valued.pattern),
        left: valued.left,
    });
    Part { outcome, ..part }
}

#[tactic(auto, unfolding(crate::specs::inner::Steps::applied_outcome))]
fn applied(binding: Binding, lhs: Valued, rhs: Valued) -> Outcome
    ensures { result ≡ applied_outcome binding.operator binding.place lhs rhs }
{
    if binding.operator.divides() && rhs.pattern == 0 {
        return Err(refused(Refusal::ZeroDivisor, binding.place));
    }
    Ok(Valued {
        pattern: values::binary(binding.operator, lhs.pattern, rhs.pattern),
        left: rhs.left,
    })
}

// Where both sides were refused, the right one's refusal is told: behind a refused left side that is the left one's, which was handed on.
fn joined_outcome(binding: Binding, lhs: Outcome, rhs: Outcome) -> Outcome
    ensures { result ≡ joined_outcome binding.operator binding.place lhs rhs }
{
    let right = rhs?;
    applied(binding, lhs?, right)
}

// Two parts and the operator between them; the right one was evaluated behind the left one.
pub fn joined(binding: Binding, lhs: Part, rhs: Part) -> Part
    ensures { result ≡ joined_part binding.operator binding.place lhs rhs }
{
    Part {
        outcome: joined_outcome(binding, lhs.outcome, rhs.outcome),
        next: rhs.next,
    }
}
