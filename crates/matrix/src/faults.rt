ghost use Rattle.std.specs.Prelude.{◌≡◌};
ghost use Rattle.matrix.specs.Refusals.{number_of, memory_number};
ghost use Rattle.matrix.specs.declared.faults.MatrixFault.TheVariants.{NoRoom};

use records::Full;
use refusals::Fault;
use std::fmt;

// Why a call on a matrix is refused.
#[derive(Clone, Copy, PartialEq, Eq, Debug)]
pub enum MatrixFault {
    // a place, a right or a type is out of range
    OutOfRange,
    // a place is empty that should be filled, or filled that should be empty
    WrongFilling,
    // there is no room for a new right
    NoRoom,
}

// 5, 6 or 7.
impl Fault for MatrixFault {
    ghost code = { number_of };

    fn number(self) -> u16 {
        match self {
            MatrixFault::OutOfRange => 5,
            MatrixFault::WrongFilling => 6,
            MatrixFault::NoRoom => 7,
        }
    }
}

impl fmt::Display for MatrixFault {
    ghost use Rattle.std.specs.Prelude.{Some};
    ghost use Rattle.matrix.specs.Words.{fault_words};

    ghost output = { λ f. Some (fault_words f) };

    fn fmt<W: fmt::Write>(&self, f: &mut fmt::Formatter<W>) -> fmt::Result {
        f.write_str(match self {
            MatrixFault::OutOfRange => "a right, a place or a type is out of range",
            MatrixFault::WrongFilling => "a place is empty, or filled, against the call",
            MatrixFault::NoRoom => "there is no room for a new right",
        })
    }
}

// A list that takes no more has no room for a right.
impl From<Full> for MatrixFault {
    ghost from_gives = { λ _ e. e ≡ NoRoom };

    fn from(_full: Full) -> MatrixFault {
        MatrixFault::NoRoom
    }
}

// Why memory does not serve for a register.
#[derive(Clone, Copy, PartialEq, Eq, Debug)]
pub enum MemoryFault {
    // the number of places is outside 1 to 128
    Places,
    // a grid has fewer cells than places times places
    ShortGrid,
    // a grant list has more than 4,096 records
    LongList,
}

// 8 for each.
impl Fault for MemoryFault {
    ghost code = { memory_number };

    fn number(self) -> u16 {
        match self {
            MemoryFault::Places => 8,
            MemoryFault::ShortGrid => 8,
            MemoryFault::LongList => 8,
        }
    }
}

impl fmt::Display for MemoryFault {
    ghost use Rattle.std.specs.Prelude.{Some};
    ghost use Rattle.matrix.specs.Words.{memory_words};

    ghost output = { λ f. Some (memory_words f) };

    fn fmt<W: fmt::Write>(&self, f: &mut fmt::Formatter<W>) -> fmt::Result {
        f.write_str(match self {
            MemoryFault::Places => "there are 1 to 128 places",
            MemoryFault::ShortGrid => "a grid wants a cell for each pair of places",
            MemoryFault::LongList => "a grant list has at most 4096 records",
        })
    }
}
