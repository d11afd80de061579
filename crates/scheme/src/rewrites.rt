// A scheme spelled out to the writer, line by line.
ghost use Rattle.std.specs.Prelude.{◌≡◌, true, List, [], ◌∷◌, is_ok, Some};
ghost use Rattle.std.specs.List.{flat_map};
ghost use Rattle.scheme.specs.Rules.{command_of, rules_of};
ghost use Rattle.scheme.specs.Written.{no_rules};
ghost use Rattle.scheme.specs.Spelling.{Line, declares, tests_for, operates, written_by, written_if, command_lines, spelled};

use crate::commands::Command;
use crate::faults::SchemeFault;
use crate::lines::{Cell, Operation, TypeKind};
use crate::schemes::Scheme;
use crate::writers::SchemeWriter;

// What is spelled out to the writer in one line or in several, up to the first that is refused.
trait Spelled {
    ghost lines: { Self → List Line };

    fn write(&self, writer: &mut SchemeWriter) -> Result<(), SchemeFault>
        ensures { written_by (rules_of writer.old.table) (lines self.now) ≡ written_if result (rules_of writer.new.table) };
}

#[tactic(auto, using(crate::proofs::Steps::written))]
fn write_all<T: Spelled>(items: &[T], writer: &mut SchemeWriter) -> Result<(), SchemeFault>
    ensures { written_by (rules_of writer.old.table) (flat_map T.lines items.now) ≡ written_if result (rules_of writer.new.table) }
{
    for item in items {
        item.write(writer)?;
    }
    Ok(())
}

impl Spelled for TypeKind {
    ghost lines = { λ k. declares k ∷ [] };

    fn write(&self, writer: &mut SchemeWriter) -> Result<(), SchemeFault> {
        writer.declare_type(*self)
    }
}

impl Spelled for Cell {
    ghost lines = { λ t. tests_for t ∷ [] };

    fn write(&self, writer: &mut SchemeWriter) -> Result<(), SchemeFault> {
        writer.add_test(*self)
    }
}

impl Spelled for Operation {
    ghost lines = { λ o. operates o ∷ [] };

    fn write(&self, writer: &mut SchemeWriter) -> Result<(), SchemeFault> {
        writer.add_operation(*self)
    }
}

// One command with all its lines.
impl Spelled for Command {
    ghost lines = { λ c. command_lines (command_of c) };

    #[tactic(auto, using(crate::proofs::Steps::written))]
    fn write(&self, writer: &mut SchemeWriter) -> Result<(), SchemeFault> {
        writer.open_command(self.formals())?;
        write_all(self.tests(), writer)?;
        write_all(self.operations(), writer)
    }
}

// Spells a scheme out to the writer, which starts anew: all types, and of each command the formal types, the tests and
// the operations. Every line of a lawful scheme is accepted, and what is finished is that scheme.
pub fn rewrite(
    scheme: &Scheme,
    writer: &mut SchemeWriter,
    into: &mut Scheme,
) -> Result<(), SchemeFault>
    ensures accepted { written_by no_rules (spelled (rules_of scheme.now.table)) ≡ Some (rules_of scheme.now.table) }
    ensures ok { is_ok result ≡ true }
    ensures copied { rules_of into.new.table ≡ rules_of scheme.now.table }
    ensures written { rules_of writer.new.table ≡ rules_of scheme.now.table }
{
    *writer = SchemeWriter::new();
    write_all(scheme.table.types(), writer)?;
    write_all(scheme.table.commands(), writer)?;
    writer.finish(into)
}
