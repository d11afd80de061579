ghost use Rattle.std.specs.Prelude.{◌≡◌, ◌<◌, [], ◌∷◌, ◌++◌, length};
ghost use Rattle.lines.specs.Lines.{said, kind_of, numbers_of};

use crate::kinds::Kind;
use matrix::Grant;
use records::ArrayList;
use scheme::{Cell, TypeKind};

// The numbers of a line.
#[derive(Clone, Copy, PartialEq, Eq)]
pub struct Numbers {
    numbers: ArrayList<u16, 20>,
}

impl Numbers {
    pub(crate) fn new() -> Numbers
        ensures { numbers_of result ≡ [] }
    {
        Numbers {
            numbers: ArrayList::new(0),
        }
    }

    pub(crate) fn push(&mut self, n: u16)
        requires { length (numbers_of self.old) < 20 }
        ensures { numbers_of self.new ≡ numbers_of self.old ++ (n ∷ []) }
    {
        let _ = self.numbers.push(n);
    }

    pub fn as_slice(&self) -> &[u16]
        ensures { result.now ≡ numbers_of self.now }
    {
        self.numbers.as_slice()
    }
}

// A right at a row and a column: of parameters in a command, of places elsewhere. So it is no cell and no grant yet, but becomes either.
#[derive(Clone, Copy, PartialEq, Eq, Debug)]
pub struct Access {
    pub right: u16,
    pub row: u16,
    pub column: u16,
}

// Of parameters, in a command.
impl From<Access> for Cell {
    ghost from_gives = { λ a c. c ≡ record { right = a.right; row = a.row; column = a.column } };

    fn from(access: Access) -> Cell {
        let Access { right, row, column } = access;
        Cell { right, row, column }
    }
}

// Of places.
impl From<Access> for Grant {
    ghost from_gives = { λ a g. g ≡ record { right = a.right; row = a.row; column = a.column } };

    fn from(access: Access) -> Grant {
        let Access { right, row, column } = access;
        Grant { right, row, column }
    }
}

// One line, taken apart.
#[derive(Clone, Copy, PartialEq, Eq)]
pub enum Line {
    // Declares a type.
    Declare(TypeKind),
    // Opens a command, with its formal types.
    Command(Numbers),
    // Adds a test, and the operations enter, delete, create and destroy, to the command opened last.
    Test(Access),
    Enter(Access),
    Delete(Access),
    Create(u16),
    Destroy(u16),
    // Opens a register: a grid of that many places, or a list of grants.
    Grid(u16),
    Grants { places: u16, records: u16 },
    // Fills a place.
    Place { place: u16, type_number: u16 },
    // Enters a first right.
    Hold(Access),
    // Runs a command at places.
    Step { command: u16, places: Numbers },
    Close,
    // Asks whether a right can come to a place.
    Ask(Access),
    Reopen,
}

impl Line {
    pub fn kind(&self) -> Kind
        ensures { result ≡ kind_of (said self.now) }
    {
        match self {
            Line::Declare(_) => Kind::Declare,
            Line::Command(_) => Kind::Command,
            Line::Test(_) => Kind::Test,
            Line::Enter(_) => Kind::Enter,
            Line::Delete(_) => Kind::Delete,
            Line::Create(_) => Kind::Create,
            Line::Destroy(_) => Kind::Destroy,
            Line::Grid(_) => Kind::Grid,
            Line::Grants { .. } => Kind::Grants,
            Line::Place { .. } => Kind::Place,
            Line::Hold(_) => Kind::Hold,
            Line::Step { .. } => Kind::Step,
            Line::Close => Kind::Close,
            Line::Ask(_) => Kind::Ask,
            Line::Reopen => Kind::Reopen,
        }
    }
}
