ghost use Rattle.lot.specs.Questions.{ask_number};

use refusals::Fault;
use std::fmt;

// Why a question is refused.
#[derive(Clone, Copy, PartialEq, Eq, Debug)]
pub enum AskFault {
    // the right or a place is out of range, a place is empty, or the row is no subject
    WrongCell,
    // the scheme does more than grant
    MoreThanGrants,
    // the closing needed more than the trial's room
    TooManyRights,
}

// 13 to 15.
impl Fault for AskFault {
    ghost code = { ask_number };

    fn number(self) -> u16 {
        match self {
            AskFault::WrongCell => 13,
            AskFault::MoreThanGrants => 14,
            AskFault::TooManyRights => 15,
        }
    }
}

impl fmt::Display for AskFault {
    ghost use Rattle.std.specs.Prelude.{Some};
    ghost use Rattle.lot.specs.Words.{ask_words};

    ghost output = { λ f. Some (ask_words f) };

    fn fmt<W: fmt::Write>(&self, f: &mut fmt::Formatter<W>) -> fmt::Result {
        f.write_str(match self {
            AskFault::WrongCell =>
                "a number out of range, an empty place, or a row that is no subject",
            AskFault::MoreThanGrants => "the scheme does more than grant",
            AskFault::TooManyRights => "more rights can be added than the trial has room for",
        })
    }
}
