ghost use Rattle.scheme.specs.Rules.{rules_of};
ghost use Rattle.scheme.specs.Lawful.{LawfulScheme};

use crate::tables::Table;

mod reads;

// An accepted scheme. It is lawful, whatever is done with it, so that no later call looks for the rules.
#[derive(Clone, Copy)]
pub struct Scheme {
    pub(crate) table: Table,
    ghost kept: { LawfulScheme (rules_of table) },
}
