// The plain table of a scheme: its types and its commands.
ghost use Rattle.std.specs.Prelude.{◌≡◌, ◌<◌, ◌≤◌, true, false, length, MatchOption};
ghost use Rattle.std.specs.Option.{option_map};
ghost use Rattle.records.specs.Arrays.{elements};
ghost use Rattle.scheme.specs.Each.{numbered};
ghost use Rattle.scheme.specs.Rules.{command_of, rules_of};
ghost use Rattle.scheme.specs.Written.{no_rules, no_commands, opened_with, with_type, with_command, with_test, with_operation, last_of, on_last};

use crate::commands::Command;
use crate::lines::{Cell, Operation, TypeKind};
use crate::parts::item;
use records::ArrayList;

#[derive(Clone, Copy)]
pub struct Table {
    types: ArrayList<TypeKind, 16>,
    commands: ArrayList<Command, 32>,
}

impl Table {
    pub(crate) fn new() -> Table
        ensures { rules_of result ≡ no_rules }
    {
        Table {
            types: ArrayList::new(TypeKind::Object),
            commands: ArrayList::new(Command::open(&[])),
        }
    }

    pub(crate) fn types(&self) -> &[TypeKind]
        ensures { result.now ≡ (rules_of self.now).types }
    {
        self.types.as_slice()
    }

    pub(crate) fn commands(&self) -> &[Command]
        ensures held { result.now ≡ elements self.now.commands }
        ensures count { length result.now ≡ length (rules_of self.now).commands }
    {
        self.commands.as_slice()
    }

    pub(crate) fn type_kind(&self, number: u16) -> Option<TypeKind>
        ensures { result ≡ numbered (rules_of self.now).types number }
    {
        item(self.types(), number).copied()
    }

    pub(crate) fn command(&self, number: u16) -> Option<&Command>
        ensures { option_map (λ c. command_of c.now) result ≡ numbered (rules_of self.now).commands number }
    {
        item(self.commands(), number)
    }

    // The command opened last, if there is one.
    pub(crate) fn last(&self) -> Option<&Command>
        ensures { MatchOption result (no_commands (rules_of self.now) ≡ true) (λ c. (no_commands (rules_of self.now) ≡ false) × (command_of c.now ≡ last_of (rules_of self.now).commands)) }
    {
        self.commands().last()
    }

    pub(crate) fn push_type(&mut self, kind: TypeKind)
        requires { length (rules_of self.old).types < 16 }
        ensures { rules_of self.new ≡ with_type kind (rules_of self.old) }
    {
        let _pushed = self.types.push(kind);
    }

    pub(crate) fn push_command(&mut self, formals: &[u16])
        requires room { length (rules_of self.old).commands < 32 }
        requires few { length formals.now ≤ 4 }
        ensures { rules_of self.new ≡ with_command (opened_with formals.now) (rules_of self.old) }
    {
        let _pushed = self.commands.push(Command::open(formals));
    }

    // One test more in the command opened last. One call for both kinds, told which list, would be longer than these two.
    #[tactic(auto, using(crate::proofs::InPlace::in_place))]
    pub(crate) fn push_test(&mut self, test: Cell)
        requires some { no_commands (rules_of self.old) ≡ false }
        requires room { length (last_of (rules_of self.old).commands).tests < 6 }
        ensures { rules_of self.new ≡ on_last (with_test test) (rules_of self.old) }
    {
        let at = self.commands().len() - 1;
        let mut command = self.commands()[at];
        command.push_test(test);
        let _put = self.commands.put(at, command);
    }

    // One operation more in the command opened last.
    #[tactic(auto, using(crate::proofs::InPlace::in_place))]
    pub(crate) fn push_operation(&mut self, operation: Operation)
        requires some { no_commands (rules_of self.old) ≡ false }
        requires room { length (last_of (rules_of self.old).commands).operations < 6 }
        ensures { rules_of self.new ≡ on_last (with_operation operation) (rules_of self.old) }
    {
        let at = self.commands().len() - 1;
        let mut command = self.commands()[at];
        command.push_operation(operation);
        let _put = self.commands.put(at, command);
    }
}
