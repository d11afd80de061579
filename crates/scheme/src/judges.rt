// Which calls of the writer a table of what is written so far allows.
ghost use Rattle.std.specs.Prelude.{◌≡◌, length, nat_le};
ghost use Rattle.std.specs.List.{list_all};
ghost use Rattle.scheme.specs.Each.{from_to};
ghost use Rattle.scheme.specs.Rules.{command_of, rules_of};
ghost use Rattle.scheme.specs.Lawful.{is_declared, is_subject, lawful_cell, in_range};
ghost use Rattle.scheme.specs.Written.{last_operates};
ghost use Rattle.scheme.specs.Refusals.{number_of, refusal, judged_type, judged_command, judged_test_in, judged_operation_in, judged_early, judged_test, judged_operation, judged_finish};

use crate::commands::Command;
use crate::faults::SchemeFault;
use crate::lines::{Cell, Operation, is_right};
use crate::tables::Table;

// The fault of a line before any command: out of range if it has a right that is none, else out of order.
fn early(right: bool) -> SchemeFault
    ensures { number_of result ≡ judged_early right }
{
    if right {
        SchemeFault::OutOfOrder
    } else {
        SchemeFault::OutOfRange
    }
}

// Whether a command may have so many parameters.
fn has_arity(formals: &[u16]) -> bool
    ensures { result ≡ from_to 1 4 (length formals.now) }
{
    (1..=4).contains(&formals.len())
}

impl Table {
    // Whether there is no room for a further command.
    fn is_full(&self) -> bool
        ensures { result ≡ nat_le 32 (length (rules_of self.now).commands) }
    {
        self.commands().len() >= 32
    }

    fn is_declared(&self, number: u16) -> bool
        ensures { result ≡ is_declared (rules_of self.now).types number }
    {
        (1..=self.types().len()).contains(&(number as usize))
    }

    fn all_declared(&self, formals: &[u16]) -> bool
        ensures { result ≡ list_all (is_declared (rules_of self.now).types) formals.now }
    {
        formals.iter().all(|formal| self.is_declared(*formal))
    }

    // Whether a parameter of a command has a subject type.
    fn is_subject(&self, command: &Command, parameter: u16) -> bool
        ensures { result ≡ is_subject (rules_of self.now).types (command_of command.now).formals parameter }
    {
        command
            .formal(parameter)
            .and_then(|formal| self.type_kind(formal))
            .is_some_and(|kind| kind.is_subject())
    }

    // Whether right, row and column are in range in a command, and the row a subject.
    fn allows_cell(&self, command: &Command, cell: Cell) -> bool
        ensures { result ≡ lawful_cell (rules_of self.now).types (command_of command.now).formals cell }
    {
        is_right(cell.right)
            && command.has_parameter(cell.column)
            && self.is_subject(command, cell.row)
    }

    fn in_range(&self, command: &Command, operation: Operation) -> bool
        ensures { result ≡ in_range (rules_of self.now).types (command_of command.now).formals operation }
    {
        match operation {
            Operation::Enter(cell) | Operation::Delete(cell) => self.allows_cell(command, cell),
            Operation::Create(p) | Operation::Destroy(p) => command.has_parameter(p),
        }
    }

    // Whether the command opened last, if there is one, has an operation.
    fn last_operates(&self) -> bool
        ensures { result ≡ last_operates (rules_of self.now) }
    {
        self.last().is_none_or(|command| command.has_operations())
    }

    pub(crate) fn judge_type(&self) -> Result<(), SchemeFault>
        ensures { refusal result ≡ judged_type (rules_of self.now) }
    {
        if self.types().len() >= 16 {
            return Err(SchemeFault::WrongCount);
        }
        Ok(())
    }

    pub(crate) fn judge_command(&self, formals: &[u16]) -> Result<(), SchemeFault>
        ensures { refusal result ≡ judged_command (rules_of self.now) formals.now }
    {
        if self.is_full() || !has_arity(formals) {
            return Err(SchemeFault::WrongCount);
        }
        if !self.all_declared(formals) {
            return Err(SchemeFault::OutOfRange);
        }
        if !self.last_operates() {
            return Err(SchemeFault::Unfinished);
        }
        Ok(())
    }

    fn judge_test_in(&self, command: &Command, test: Cell) -> Result<(), SchemeFault>
        ensures { refusal result ≡ judged_test_in (rules_of self.now).types (command_of command.now) test }
    {
        if command.tests().len() >= 6 {
            return Err(SchemeFault::WrongCount);
        }
        if !self.allows_cell(command, test) {
            return Err(SchemeFault::OutOfRange);
        }
        if command.has_operations() {
            return Err(SchemeFault::OutOfOrder);
        }
        Ok(())
    }

    // Whether a test may join the command opened last. One call for both kinds, told which judgement, would be longer than these two.
    pub(crate) fn judge_test(&self, test: Cell) -> Result<(), SchemeFault>
        ensures { refusal result ≡ judged_test (rules_of self.now) test }
    {
        match self.last() {
            None => Err(early(is_right(test.right))),
            Some(command) => self.judge_test_in(command, test),
        }
    }

    fn judge_operation_in(&self, command: &Command, operation: Operation) -> Result<(), SchemeFault>
        ensures { refusal result ≡ judged_operation_in (rules_of self.now).types (command_of command.now) operation }
    {
        if command.operations().len() >= 6 {
            return Err(SchemeFault::WrongCount);
        }
        if !self.in_range(command, operation) {
            return Err(SchemeFault::OutOfRange);
        }
        if !command.keeps_order(operation) {
            return Err(SchemeFault::OutOfOrder);
        }
        Ok(())
    }

    // Whether an operation may join the command opened last.
    pub(crate) fn judge_operation(&self, operation: Operation) -> Result<(), SchemeFault>
        ensures { refusal result ≡ judged_operation (rules_of self.now) operation }
    {
        match self.last() {
            None => Err(early(operation.has_right())),
            Some(command) => self.judge_operation_in(command, operation),
        }
    }

    pub(crate) fn judge_finish(&self) -> Result<(), SchemeFault>
        ensures { refusal result ≡ judged_finish (rules_of self.now) }
    {
        match self.last() {
            Some(command) if command.has_operations() => Ok(()),
            _ => Err(SchemeFault::Unfinished),
        }
    }
}
