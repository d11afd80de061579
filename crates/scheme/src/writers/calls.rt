// The calls of the writer: each adds one line, or is refused and changes nothing.
ghost use Rattle.std.specs.Prelude.{◌≡◌, is_ok};
ghost use Rattle.scheme.specs.Rules.{rules_of};
ghost use Rattle.scheme.specs.Lawful.{lawful};
ghost use Rattle.scheme.specs.Written.{no_rules, opened_with, with_type, with_command, with_test, with_operation, on_last};
ghost use Rattle.refusals.specs.Refusals.{Accepted, Refused};
ghost use Rattle.scheme.specs.Refusals.{refusal, judged_type, judged_command, judged_test, judged_operation, judged_finish};
ghost use Rattle.scheme.specs.declared.lines.Operation.TheVariants.{Enter, Delete, Create, Destroy};

use super::SchemeWriter;
use crate::faults::SchemeFault;
use crate::lines::{Cell, Operation, TypeKind};
use crate::schemes::Scheme;
use crate::tables::Table;

impl SchemeWriter {
    // Nothing is written yet.
    pub fn new() -> SchemeWriter
        ensures { rules_of result.table ≡ no_rules }
    {
        SchemeWriter {
            table: Table::new(),
        }
    }

    pub fn declare_type(&mut self, kind: TypeKind) -> Result<(), SchemeFault>
        ensures number { refusal result ≡ judged_type (rules_of self.old.table) }
        ensures added { Accepted result (rules_of self.new.table ≡ with_type kind (rules_of self.old.table)) }
        ensures same { Refused result (self.new ≡ self.old) }
    {
        self.table.judge_type()?;
        self.table.push_type(kind);
        Ok(())
    }

    // Opens a command whose parameters have these types, in order.
    pub fn open_command(&mut self, formals: &[u16]) -> Result<(), SchemeFault>
        ensures number { refusal result ≡ judged_command (rules_of self.old.table) formals.now }
        ensures added { Accepted result (rules_of self.new.table ≡ with_command (opened_with formals.now) (rules_of self.old.table)) }
        ensures same { Refused result (self.new ≡ self.old) }
    {
        self.table.judge_command(formals)?;
        self.table.push_command(formals);
        Ok(())
    }

    // Adds a test to the command opened last; so do the next calls with an operation.
    pub fn add_test(&mut self, test: Cell) -> Result<(), SchemeFault>
        ensures number { refusal result ≡ judged_test (rules_of self.old.table) test }
        ensures added { Accepted result (rules_of self.new.table ≡ on_last (with_test test) (rules_of self.old.table)) }
        ensures same { Refused result (self.new ≡ self.old) }
    {
        self.table.judge_test(test)?;
        self.table.push_test(test);
        Ok(())
    }

    pub(crate) fn add_operation(&mut self, operation: Operation) -> Result<(), SchemeFault>
        ensures number { refusal result ≡ judged_operation (rules_of self.old.table) operation }
        ensures added { Accepted result (rules_of self.new.table ≡ on_last (with_operation operation) (rules_of self.old.table)) }
        ensures same { Refused result (self.new ≡ self.old) }
    {
        self.table.judge_operation(operation)?;
        self.table.push_operation(operation);
        Ok(())
    }

    pub fn add_enter(&mut self, cell: Cell) -> Result<(), SchemeFault>
        ensures number { refusal result ≡ judged_operation (rules_of self.old.table) (Enter cell) }
        ensures added { Accepted result (rules_of self.new.table ≡ on_last (with_operation (Enter cell)) (rules_of self.old.table)) }
        ensures same { Refused result (self.new ≡ self.old) }
    {
        self.add_operation(Operation::Enter(cell))
    }

    pub fn add_delete(&mut self, cell: Cell) -> Result<(), SchemeFault>
        ensures number { refusal result ≡ judged_operation (rules_of self.old.table) (Delete cell) }
        ensures added { Accepted result (rules_of self.new.table ≡ on_last (with_operation (Delete cell)) (rules_of self.old.table)) }
        ensures same { Refused result (self.new ≡ self.old) }
    {
        self.add_operation(Operation::Delete(cell))
    }

    pub fn add_create(&mut self, parameter: u16) -> Result<(), SchemeFault>
        ensures number { refusal result ≡ judged_operation (rules_of self.old.table) (Create parameter) }
        ensures added { Accepted result (rules_of self.new.table ≡ on_last (with_operation (Create parameter)) (rules_of self.old.table)) }
        ensures same { Refused result (self.new ≡ self.old) }
    {
        self.add_operation(Operation::Create(parameter))
    }

    pub fn add_destroy(&mut self, parameter: u16) -> Result<(), SchemeFault>
        ensures number { refusal result ≡ judged_operation (rules_of self.old.table) (Destroy parameter) }
        ensures added { Accepted result (rules_of self.new.table ≡ on_last (with_operation (Destroy parameter)) (rules_of self.old.table)) }
        ensures same { Refused result (self.new ≡ self.old) }
    {
        self.add_operation(Operation::Destroy(parameter))
    }

    // Whether what is written is a lawful scheme.
    fn judge(&self) -> Result<(), SchemeFault>
        ensures number { refusal result ≡ judged_finish (rules_of self.now.table) }
        ensures exact { is_ok result ≡ lawful (rules_of self.now.table) }
    {
        self.table.judge_finish()
    }

    // Writes all of it into a scheme that the caller holds, if it is a lawful scheme.
    pub fn finish(&self, into: &mut Scheme) -> Result<(), SchemeFault>
        ensures number { refusal result ≡ judged_finish (rules_of self.now.table) }
        ensures exact { is_ok result ≡ lawful (rules_of self.now.table) }
        ensures written { Accepted result (rules_of into.new.table ≡ rules_of self.now.table) }
        ensures same { Refused result (into.new ≡ into.old) }
    {
        self.judge()?;
        *into = Scheme { table: self.table };
        Ok(())
    }
}
