ghost use Rattle.scheme.specs.Refusals.{number_of};

use refusals::Fault;
use std::fmt;

// Why the writer of a scheme refuses a call.
#[derive(Clone, Copy, PartialEq, Eq, Debug)]
pub enum SchemeFault {
    // too many types, commands, tests, operations or parameters, or no parameter
    WrongCount,
    // an undeclared type, a right or a parameter that does not exist, or a row of a pure object type
    OutOfRange,
    // a create or a destroy against the rules, a test after an operation, or a line before any command
    OutOfOrder,
    // a command without operations, or no command at all
    Unfinished,
}

// 1 to 4.
impl Fault for SchemeFault {
    ghost code = { number_of };

    fn number(self) -> u16 {
        match self {
            SchemeFault::WrongCount => 1,
            SchemeFault::OutOfRange => 2,
            SchemeFault::OutOfOrder => 3,
            SchemeFault::Unfinished => 4,
        }
    }
}

impl fmt::Display for SchemeFault {
    ghost use Rattle.std.specs.Prelude.{Some};
    ghost use Rattle.scheme.specs.Words.{fault_words};

    ghost output = { λ f. Some (fault_words f) };

    fn fmt<W: fmt::Write>(&self, f: &mut fmt::Formatter<W>) -> fmt::Result {
        f.write_str(match self {
            SchemeFault::WrongCount => "too many of these, or none",
            SchemeFault::OutOfRange => "a number out of range, or a row that is no subject",
            SchemeFault::OutOfOrder => "a line that may not stand here",
            SchemeFault::Unfinished => "a command without operations",
        })
    }
}
