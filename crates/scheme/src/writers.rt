ghost use Rattle.std.specs.Prelude.{◌≡◌, true};
ghost use Rattle.scheme.specs.Rules.{rules_of};
ghost use Rattle.scheme.specs.Written.{sound};

use crate::tables::Table;

mod calls;

// What is written of a scheme so far. Each line of it is lawful where it stands.
#[derive(Drop)]
pub struct SchemeWriter {
    table: Table,
    ghost kept: { sound (rules_of table) ≡ true },
}
