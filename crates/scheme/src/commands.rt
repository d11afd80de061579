// A command: its formal types, its tests and its operations.
ghost use Rattle.std.specs.Prelude.{◌≡◌, ◌<◌, ◌≤◌, length};
ghost use Rattle.scheme.specs.Each.{numbered};
ghost use Rattle.scheme.specs.Rules.{command_of, only_enters};
ghost use Rattle.scheme.specs.Written.{opened_with, with_test, with_operation};
ghost use Rattle.scheme.specs.Lines.{test_named, named, created, destroyed};
ghost use Rattle.scheme.specs.Lawful.{has_parameter, creates_fresh, destroys_older, names_standing, has_operations};
ghost use Rattle.scheme.specs.Refusals.{keeps_order};

use crate::lines::{Cell, Operation};
use crate::parts::item;
use records::ArrayList;

#[derive(Clone, Copy)]
pub struct Command {
    formals: ArrayList<u16, 4>,
    tests: ArrayList<Cell, 6>,
    operations: ArrayList<Operation, 6>,
}

impl Command {
    // The formal types of the parameters, in order.
    pub fn formals(&self) -> &[u16]
        ensures { result.now ≡ (command_of self.now).formals }
    {
        self.formals.as_slice()
    }

    pub fn tests(&self) -> &[Cell]
        ensures { result.now ≡ (command_of self.now).tests }
    {
        self.tests.as_slice()
    }

    pub fn operations(&self) -> &[Operation]
        ensures { result.now ≡ (command_of self.now).operations }
    {
        self.operations.as_slice()
    }

    // How many parameters the command has.
    pub fn arity(&self) -> u16
        ensures { result ≡ length (command_of self.now).formals }
    {
        self.formals.as_slice().len() as u16
    }

    // The formal type of a parameter.
    pub fn formal(&self, parameter: u16) -> Option<u16>
        ensures { result ≡ numbered (command_of self.now).formals parameter }
    {
        item(self.formals(), parameter).copied()
    }

    // Whether an operation of the command creates a parameter.
    pub fn creates(&self, parameter: u16) -> bool
        ensures { result ≡ created (command_of self.now).operations parameter }
    {
        self.operations()
            .iter()
            .any(|operation| operation.creates(parameter))
    }

    // Whether every operation is an enter.
    pub fn only_enters(&self) -> bool
        ensures { result ≡ only_enters (command_of self.now) }
    {
        self.operations()
            .iter()
            .all(|operation| operation.entered().is_some())
    }

    pub(crate) fn has_parameter(&self, parameter: u16) -> bool
        ensures { result ≡ has_parameter (command_of self.now).formals parameter }
    {
        (1..=self.arity()).contains(&parameter)
    }

    pub(crate) fn has_operations(&self) -> bool
        ensures { result ≡ has_operations (command_of self.now) }
    {
        !self.operations().is_empty()
    }

    // Whether a test names a parameter.
    fn tests_name(&self, parameter: u16) -> bool
        ensures { result ≡ test_named (command_of self.now).tests parameter }
    {
        self.tests().iter().any(|test| test.names(parameter))
    }

    // Whether an operation names it.
    fn names(&self, parameter: u16) -> bool
        ensures { result ≡ named (command_of self.now).operations parameter }
    {
        self.operations()
            .iter()
            .any(|operation| operation.names(parameter))
    }

    // Whether an operation destroys it.
    fn destroys(&self, parameter: u16) -> bool
        ensures { result ≡ destroyed (command_of self.now).operations parameter }
    {
        self.operations()
            .iter()
            .any(|operation| operation.destroys(parameter))
    }

    // Whether an operation that comes next creates no parameter that a line before it names.
    fn creates_fresh(&self, operation: Operation) -> bool
        ensures { result ≡ creates_fresh (command_of self.now).tests (command_of self.now).operations operation }
    {
        match operation {
            Operation::Create(p) => !(self.tests_name(p) || self.names(p)),
            _ => true,
        }
    }

    // Whether it destroys no parameter that the command creates.
    fn destroys_older(&self, operation: Operation) -> bool
        ensures { result ≡ destroys_older (command_of self.now).operations operation }
    {
        match operation {
            Operation::Destroy(p) => !self.creates(p),
            _ => true,
        }
    }

    // Whether it names no parameter that the command has destroyed.
    fn names_standing(&self, operation: Operation) -> bool
        ensures { result ≡ names_standing (command_of self.now).operations operation }
    {
        match operation {
            Operation::Enter(cell) | Operation::Delete(cell) => {
                !(self.destroys(cell.row) || self.destroys(cell.column))
            }
            Operation::Create(p) | Operation::Destroy(p) => !self.destroys(p),
        }
    }

    // Whether an operation that comes next keeps the rules of creating and destroying.
    pub(crate) fn keeps_order(&self, operation: Operation) -> bool
        ensures { result ≡ keeps_order (command_of self.now).tests (command_of self.now).operations operation }
    {
        self.creates_fresh(operation)
            && self.destroys_older(operation)
            && self.names_standing(operation)
    }

    // A command as it is opened.
    pub(crate) fn open(formals: &[u16]) -> Command
        requires { length formals.now ≤ 4 }
        ensures { command_of result ≡ opened_with formals.now }
    {
        let blank = Cell {
            right: 0,
            row: 0,
            column: 0,
        };
        Command {
            formals: ArrayList::first_of(formals, 0),
            tests: ArrayList::new(blank),
            operations: ArrayList::new(Operation::Create(0)),
        }
    }

    // There is room, so that the list takes it. Tests and operations have a call each: to say which list is longer than both.
    pub(crate) fn push_test(&mut self, test: Cell)
        requires { length (command_of self.old).tests < 6 }
        ensures { command_of self.new ≡ with_test test (command_of self.old) }
    {
        let _pushed = self.tests.push(test);
    }

    pub(crate) fn push_operation(&mut self, operation: Operation)
        requires { length (command_of self.old).operations < 6 }
        ensures { command_of self.new ≡ with_operation operation (command_of self.old) }
    {
        let _pushed = self.operations.push(operation);
    }
}
