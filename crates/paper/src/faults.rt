// What a reading itself can be refused for. No room and Allowance spent are not among these: they come from outside the reading.
ghost use Rattle.std.specs.Prelude.{◌≡◌};
ghost use Rattle.paper.specs.Traces.{fault_number};

use crate::refusals::Refusal;

#[derive(Clone, Copy)]
pub enum Fault {
    NoDigit,
    BadBase,
    TooBig,
    BadCode,
    BadString,
    BadReference,
    UnknownName,
    TooDeep,
    BadExpression,
    ZeroDivisor,
    NotAnInteger,
    CodeOver255,
}

impl Fault {
    // No code here calls it any more; the theorem `Determined` of `promises` has it (`fault_number`).
    #[tactic(auto, using(crate::proofs::Refused::fault_refused))]
    pub fn number(self) -> u8
        ensures { result ≡ fault_number self }
    {
        Refusal::from(self).number()
    }
}
