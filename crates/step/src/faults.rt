ghost use Rattle.step.specs.Judged.{number_of};

use refusals::Fault;
use std::fmt;

// Why a step is refused.
#[derive(Clone, Copy, PartialEq, Eq, Debug)]
pub enum StepFault {
    // no such command, a wrong number of places, or more than enters on a matrix that is no register
    NoSuchStep,
    // a place out of range, repeated, or of the wrong type or filling
    WrongPlace,
    // a test does not find its right in its cell
    ConditionFalse,
    // the need exceeds the room
    NoRoom,
}

// 9 to 12.
impl Fault for StepFault {
    ghost code = { number_of };

    fn number(self) -> u16 {
        match self {
            StepFault::NoSuchStep => 9,
            StepFault::WrongPlace => 10,
            StepFault::ConditionFalse => 11,
            StepFault::NoRoom => 12,
        }
    }
}

impl fmt::Display for StepFault {
    ghost use Rattle.std.specs.Prelude.{Some};
    ghost use Rattle.step.specs.Words.{fault_words};

    ghost output = { λ f. Some (fault_words f) };

    fn fmt<W: fmt::Write>(&self, f: &mut fmt::Formatter<W>) -> fmt::Result {
        f.write_str(match self {
            StepFault::NoSuchStep => {
                "no such command, a wrong number of places, or more than enters on a trial"
            }
            StepFault::WrongPlace => {
                "a place out of range, repeated, or of the wrong type or filling"
            }
            StepFault::ConditionFalse => "a test does not find its right",
            StepFault::NoRoom => "the new rights exceed the room",
        })
    }
}
