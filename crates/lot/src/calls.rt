ghost use Rattle.std.specs.Prelude.{◌≡◌};
ghost use Rattle.lot.specs.Histories.{call_number};
ghost use Rattle.lot.specs.declared.calls.CallFault.TheVariants as fault;

use crate::AskFault;
use matrix::Grant;
use refusals::Fault;
use std::fmt;
use step::{Step, StepFault};

// What is asked of a lot in a run.
#[derive(Clone, Copy, PartialEq, Eq)]
pub enum Call {
    Step(Step),
    Close,
    Ask(Grant),
    Reopen,
}

// Whether a right can come to be held.
#[derive(Clone, Copy, PartialEq, Eq, Debug)]
pub enum Verdict {
    // it is held now
    Held,
    // after so many first steps of the plan it is
    Leaks(u16),
    // never
    Safe,
}

// Why a call of a run is refused: the fault of the step or of the question.
#[derive(Clone, Copy, PartialEq, Eq, Debug)]
pub enum CallFault {
    Step(StepFault),
    Ask(AskFault),
}

// What a call of a run is answered: a question's verdict, none for a call that is done.
pub type Answer = Result<Option<Verdict>, CallFault>;

impl Fault for CallFault {
    ghost code = { call_number };

    fn number(self) -> u16 {
        match self {
            CallFault::Step(fault) => fault.number(),
            CallFault::Ask(fault) => fault.number(),
        }
    }
}

impl fmt::Display for CallFault {
    ghost use Rattle.std.specs.Prelude.{Some};
    ghost use Rattle.lot.specs.Words.{call_words};

    ghost output = { λ f. Some (call_words f) };

    fn fmt<W: fmt::Write>(&self, f: &mut fmt::Formatter<W>) -> fmt::Result {
        match self {
            CallFault::Step(fault) => write!(f, "{fault}"),
            CallFault::Ask(fault) => write!(f, "{fault}"),
        }
    }
}

impl From<StepFault> for CallFault {
    ghost from_gives = { λ f e. e ≡ fault.Step f };

    fn from(fault: StepFault) -> CallFault {
        CallFault::Step(fault)
    }
}

impl From<AskFault> for CallFault {
    ghost from_gives = { λ f e. e ≡ fault.Ask f };

    fn from(fault: AskFault) -> CallFault {
        CallFault::Ask(fault)
    }
}
