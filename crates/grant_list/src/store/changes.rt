ghost use Rattle.std.specs.Prelude.{◌≡◌, false, filter, MatchOption};
ghost use Rattle.std.specs.List.{slice_get};
ghost use Rattle.records.specs.Lent.{items, capacity};
ghost use Rattle.matrix.specs.Grants.{names};
ghost use Rattle.grant_list.specs.Grants.{away};

use super::GrantList;
use matrix::{Grant, Matrix, MatrixFault, Register};

impl GrantList<'_> {
    // Whether there is a record at a position, and it names a place.
    fn names_at(&self, position: usize, place: u16) -> bool
        ensures { MatchOption (slice_get (items self.now.grants) position) (result ≡ false) (λ g. result ≡ names place g) }
    {
        self.grants
            .at(position)
            .is_some_and(|grant| grant.names(place))
    }

    // Takes out every record that names a place as row or as column; the others stay in order.
    fn drop_naming(&mut self, place: u16)
        ensures after { items self.new.grants ≡ filter (away place) (items self.old.grants) }
        ensures size { capacity self.new.grants ≡ capacity self.old.grants }
        ensures table { self.new.table ≡ self.old.table }
    {
        // by position, from the end: a `retain` of the list would be a public call that asks something of its caller's closure
        for position in (0..self.grants.len()).rev() {
            if self.names_at(position, place) {
                self.grants.take_out(position);
            }
        }
    }
}

// `create` reads like the grid's: one for both would have the trait lend the table, and say in clauses that nothing else changes.
impl Register for GrantList<'_> {
    fn delete(&mut self, grant: Grant) -> Result<(), MatrixFault> {
        self.table.judge_grant(grant)?;
        if let Some(found) = self.grants.find(&grant) {
            self.grants.take_out(found);
        }
        Ok(())
    }

    fn create(&mut self, place: u16, kind: u16) -> Result<(), MatrixFault> {
        self.table.judge_create(place, kind)?;
        self.table.put(place, Some(kind));
        Ok(())
    }

    fn destroy(&mut self, place: u16) -> Result<(), MatrixFault> {
        self.table.judge_destroy(place)?;
        self.drop_naming(place);
        self.table.put(place, None);
        Ok(())
    }
}
