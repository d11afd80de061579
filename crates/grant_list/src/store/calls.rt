ghost use Rattle.std.specs.Prelude.{◌≡◌};
ghost use Rattle.grant_list.specs.Means.{list_means, list_lawful};

use super::GrantList;
use matrix::{Grant, Matrix, MatrixFault};

impl Matrix for GrantList<'_> {
    ghost means = { list_means };

    ghost lawful = { list_lawful };

    fn places(&self) -> u16 {
        self.table.places()
    }

    fn type_of(&self, place: u16) -> Option<u16> {
        self.table.type_of(place)
    }

    // A grant out of range, or at an empty place, is told without a look at the records.
    fn is_held(&self, grant: Grant) -> bool {
        self.table.judge_grant(grant).is_ok() && self.grants.find(&grant).is_some()
    }

    fn room(&self) -> u32 {
        self.grants.free() as u32
    }

    fn enter(&mut self, grant: Grant) -> Result<(), MatrixFault> {
        self.table.judge_grant(grant)?;
        self.grants.add(grant)?;
        Ok(())
    }
}
