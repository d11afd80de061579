ghost use Rattle.std.specs.Prelude.{◌≡◌};
ghost use Rattle.matrix.specs.Grants.{same_grant, names};
ghost use Rattle.matrix.specs.Ranges.{within};
ghost use Rattle.matrix.specs.Refusals.{refusal, cell_judged};

use crate::MatrixFault;
use std::fmt;

// A right in a cell: the row's place has it in the column's place. Two are equal if all three numbers agree. The cells of a scheme have the
// same fields but name parameters, and those of a line may be either: three types, so that none is taken for another.
#[derive(Clone, Copy, PartialEq, Eq, Debug)]
pub struct Grant {
    pub right: u16,
    pub row: u16,
    pub column: u16,
}

impl Grant {
    // Equality, in the words of contracts.
    pub fn same(&self, other: &Grant) -> bool
        ensures { result ≡ same_grant self.now other.now }
    {
        self == other
    }

    // Whether a place is the row or the column.
    pub fn names(&self, place: u16) -> bool
        ensures { result ≡ names place self.now }
    {
        self.row == place || self.column == place
    }
}

impl fmt::Display for Grant {
    ghost use Rattle.std.specs.Prelude.{Some};
    ghost use Rattle.matrix.specs.Words.{grant_words};

    ghost output = { λ g. Some (grant_words g) };

    fn fmt<W: fmt::Write>(&self, f: &mut fmt::Formatter<W>) -> fmt::Result {
        let Grant { right, row, column } = *self;
        write!(f, "right {right} of place {row} in place {column}")
    }
}

// Whether a number is one of 1 to a largest.
pub fn is_within(number: u16, largest: u16) -> bool
    ensures { result ≡ within number largest }
{
    (1..=largest).contains(&number)
}

// Whether a grant may stand in a matrix with so many places, its row and its column having these types:
// 5 if a number is out of range, else 6 if a place is empty.
pub fn judge_cell(
    grant: Grant,
    places: u16,
    row: Option<u16>,
    column: Option<u16>,
) -> Result<(), MatrixFault>
    ensures { refusal result ≡ cell_judged places row column grant }
{
    if !(is_within(grant.right, 32)
        && is_within(grant.row, places)
        && is_within(grant.column, places))
    {
        Err(MatrixFault::OutOfRange)
    } else if row.is_some() && column.is_some() {
        Ok(())
    } else {
        Err(MatrixFault::WrongFilling)
    }
}
