// The lines of a command: tests and operations over its parameters.
ghost use Rattle.std.specs.Prelude.{◌≡◌};
ghost use Rattle.scheme.specs.Lines.{cell_names, names, creates, destroys, entered_cell};
ghost use Rattle.scheme.specs.Lawful.{is_right, subject_kind};
ghost use Rattle.scheme.specs.Refusals.{right_lawful};

use std::fmt;

#[derive(Clone, Copy, PartialEq, Eq, Debug)]
pub enum TypeKind {
    Subject,
    // a pure object type
    Object,
}

// A right in the cell of two parameters of a command, which are given by their numbers. No grant, though its fields are the same: that names places.
#[derive(Clone, Copy, PartialEq, Eq, Debug)]
pub struct Cell {
    pub right: u16,
    pub row: u16,
    pub column: u16,
}

#[derive(Clone, Copy, PartialEq, Eq, Debug)]
pub enum Operation {
    Enter(Cell),
    Delete(Cell),
    Create(u16),
    Destroy(u16),
}

impl fmt::Display for Cell {
    ghost use Rattle.std.specs.Prelude.{Some};
    ghost use Rattle.scheme.specs.Words.{cell_words};

    ghost output = { λ c. Some (cell_words c) };

    fn fmt<W: fmt::Write>(&self, f: &mut fmt::Formatter<W>) -> fmt::Result {
        let Cell { right, row, column } = *self;
        write!(f, "right {right} of {row} in {column}")
    }
}

impl fmt::Display for Operation {
    ghost use Rattle.std.specs.Prelude.{Some};
    ghost use Rattle.scheme.specs.Words.{operation_words};

    ghost output = { λ o. Some (operation_words o) };

    fn fmt<W: fmt::Write>(&self, f: &mut fmt::Formatter<W>) -> fmt::Result {
        match self {
            Operation::Enter(cell) => write!(f, "enter {cell}"),
            Operation::Delete(cell) => write!(f, "delete {cell}"),
            Operation::Create(parameter) => write!(f, "create {parameter}"),
            Operation::Destroy(parameter) => write!(f, "destroy {parameter}"),
        }
    }
}

impl TypeKind {
    pub fn is_subject(self) -> bool
        ensures { result ≡ subject_kind self }
    {
        matches!(self, TypeKind::Subject)
    }
}

// Whether a number is one of the rights, 1 to 32.
pub(crate) fn is_right(right: u16) -> bool
    ensures { result ≡ is_right right }
{
    (1..=32).contains(&right)
}

impl Cell {
    pub(crate) fn names(self, parameter: u16) -> bool
        ensures { result ≡ cell_names self parameter }
    {
        self.row == parameter || self.column == parameter
    }
}

impl Operation {
    // The cell that an enter enters, none for another operation.
    pub fn entered(self) -> Option<Cell>
        ensures { result ≡ entered_cell self }
    {
        match self {
            Operation::Enter(cell) => Some(cell),
            _ => None,
        }
    }

    pub(crate) fn names(self, parameter: u16) -> bool
        ensures { result ≡ names self parameter }
    {
        match self {
            Operation::Enter(cell) | Operation::Delete(cell) => cell.names(parameter),
            Operation::Create(p) | Operation::Destroy(p) => p == parameter,
        }
    }

    pub(crate) fn creates(self, parameter: u16) -> bool
        ensures { result ≡ creates self parameter }
    {
        matches!(self, Operation::Create(p) if p == parameter)
    }

    pub(crate) fn destroys(self, parameter: u16) -> bool
        ensures { result ≡ destroys self parameter }
    {
        matches!(self, Operation::Destroy(p) if p == parameter)
    }

    // Whether the right of an enter or a delete is one; a create and a destroy have none.
    pub(crate) fn has_right(self) -> bool
        ensures { result ≡ right_lawful self }
    {
        match self {
            Operation::Enter(cell) | Operation::Delete(cell) => is_right(cell.right),
            Operation::Create(_) | Operation::Destroy(_) => true,
        }
    }
}
