ghost use Rattle.std.specs.Prelude.{◌≡◌, min, cond, Some, None};
ghost use Rattle.matrix.specs.Refusals.{refusal, cell_judged, create_judged, destroy_judged};
ghost use Rattle.matrix.specs.Tables.{table_places, table_type, put_type};

use crate::{Grant, MatrixFault, is_within, judge_cell};

// How many places there are, 128 at most, and the type of each; a number outside 1 to 16 marks an empty place.
#[derive(Clone, Copy)]
pub struct PlaceTable {
    // numbers and not options, and n beside them: a rule of the project gives the table as one plain array of 128 numbers, of which any may be 0
    types: [u16; 128],
    n: u16,
}

impl PlaceTable {
    // So many places, or 128 if that is less, all empty.
    pub fn new(n: u16) -> PlaceTable
        ensures size { table_places result ≡ min n 128 }
        ensures empty { table_type result ≡ (λ _. None) }
    {
        PlaceTable { types: [0; 128], n }
    }

    pub fn places(&self) -> u16
        ensures { result ≡ table_places self.now }
    {
        self.n.min(128)
    }

    // The type of a place, none where it is empty or no place of the table.
    pub fn type_of(&self, place: u16) -> Option<u16>
        ensures { result ≡ table_type self.now place }
    {
        if !is_within(place, self.places()) {
            return None;
        }
        let kind = self.types[place as usize - 1];
        if is_within(kind, 16) {
            Some(kind)
        } else {
            None
        }
    }

    // Gives a place a type, or empties it; a number that is no place of the table, or no type, changes nothing.
    pub fn put(&mut self, place: u16, kind: Option<u16>)
        ensures after { table_type self.new ≡ put_type self.old place kind }
        ensures size { table_places self.new ≡ table_places self.old }
    {
        if is_within(place, self.places()) {
            self.types[place as usize - 1] = kind.unwrap_or(0);
        }
    }

    // 5 if a number of the grant is out of range, else 6 if its row or its column is empty.
    pub fn judge_grant(&self, grant: Grant) -> Result<(), MatrixFault>
        ensures { refusal result ≡ cell_judged (table_places self.now) (table_type self.now grant.row) (table_type self.now grant.column) grant }
    {
        judge_cell(
            grant,
            self.places(),
            self.type_of(grant.row),
            self.type_of(grant.column),
        )
    }

    // 5 if the place or the type is out of range, else 6 if the place is filled.
    pub fn judge_create(&self, place: u16, kind: u16) -> Result<(), MatrixFault>
        ensures { refusal result ≡ create_judged (table_places self.now) (table_type self.now place) place kind }
    {
        if !(is_within(place, self.places()) && is_within(kind, 16)) {
            Err(MatrixFault::OutOfRange)
        } else if self.type_of(place).is_some() {
            Err(MatrixFault::WrongFilling)
        } else {
            Ok(())
        }
    }

    // 5 if the place is out of range, else 6 if it is empty.
    pub fn judge_destroy(&self, place: u16) -> Result<(), MatrixFault>
        ensures { refusal result ≡ destroy_judged (table_places self.now) (table_type self.now place) place }
    {
        if !is_within(place, self.places()) {
            Err(MatrixFault::OutOfRange)
        } else if self.type_of(place).is_none() {
            Err(MatrixFault::WrongFilling)
        } else {
            Ok(())
        }
    }
}
