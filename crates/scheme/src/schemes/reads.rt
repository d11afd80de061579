// What a scheme says.
ghost use Rattle.std.specs.Prelude.{◌≡◌, length};
ghost use Rattle.std.specs.Option.{option_map};
ghost use Rattle.scheme.specs.Each.{numbered};
ghost use Rattle.scheme.specs.Rules.{command_of, rules_of, only_enters, only_grants};
ghost use Rattle.scheme.specs.Written.{smallest};

use super::Scheme;
use crate::commands::Command;
use crate::lines::{Cell, Operation, TypeKind};
use crate::tables::Table;

impl Scheme {
    // A lawful scheme to begin with: one subject type, and one command that enters right 1 into the cell of its only parameter.
    pub fn smallest() -> Scheme
        ensures { rules_of result.table ≡ smallest }
    {
        let mut table = Table::new();
        table.push_type(TypeKind::Subject);
        table.push_command(&[1]);
        table.push_operation(Operation::Enter(Cell {
            right: 1,
            row: 1,
            column: 1,
        }));
        Scheme { table }
    }

    // How many types there are; they have the numbers from 1 to this.
    pub fn types(&self) -> u16
        ensures { result ≡ length (rules_of self.now.table).types }
    {
        self.table.types().len() as u16
    }

    pub fn type_kind(&self, number: u16) -> Option<TypeKind>
        ensures { result ≡ numbered (rules_of self.now.table).types number }
    {
        self.table.type_kind(number)
    }

    // How many commands there are; they have the numbers from 1 to this.
    pub fn commands(&self) -> u16
        ensures { result ≡ length (rules_of self.now.table).commands }
    {
        self.table.commands().len() as u16
    }

    pub fn command(&self, number: u16) -> Option<&Command>
        ensures { option_map (λ c. command_of c.now) result ≡ numbered (rules_of self.now.table).commands number }
    {
        self.table.command(number)
    }

    // Whether every operation of every command is an enter.
    pub fn only_grants(&self) -> bool
        ensures { result ≡ only_grants (rules_of self.now.table) }
    {
        self.table
            .commands()
            .iter()
            .all(|command| command.only_enters())
    }
}
