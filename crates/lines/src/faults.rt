ghost use Rattle.lines.specs.Fault.{number_of};

use refusals::Fault;
use std::fmt;

// Why a line is refused.
#[derive(Clone, Copy, PartialEq, Eq, Debug)]
pub enum LineFault {
    Malformed,
}

// 17.
impl Fault for LineFault {
    ghost code = { number_of };

    fn number(self) -> u16 {
        match self {
            LineFault::Malformed => 17,
        }
    }
}

impl fmt::Display for LineFault {
    ghost use Rattle.std.specs.Prelude.{Some};
    ghost use Rattle.lines.specs.Words.{fault_words};

    ghost output = { λ f. Some (fault_words f) };

    fn fmt<W: fmt::Write>(&self, f: &mut fmt::Formatter<W>) -> fmt::Result {
        f.write_str(match self {
            LineFault::Malformed => "it is no line",
        })
    }
}
