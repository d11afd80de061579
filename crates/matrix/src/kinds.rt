ghost use Rattle.std.specs.Prelude.{◌≡◌};
ghost use Rattle.matrix.specs.Standing.{Meaning, Lawful};
ghost use Rattle.refusals.specs.Refusals.{Accepted, Refused};
ghost use Rattle.matrix.specs.Refusals.{refusal, enter_refusal, delete_refusal, create_refusal, destroy_refusal};
ghost use Rattle.matrix.specs.Calls.{Entered, Deleted, Created, Destroyed};
ghost use Rattle.matrix.specs.Frames.{Frame, no_more};

use crate::{Grant, MatrixFault};

// Who holds which right in what, and the room for new rights: `means` says it, and `lawful` that it keeps its bounds. `frame` says what its
// calls leave alone though the meaning does not show it; a kind that does not give it promises no more than the meaning shows.
pub trait Matrix {
    ghost means: { Self → Meaning };

    ghost lawful: { (x : Self) → Lawful (means x) };

    ghost frame: { Frame Self } = { no_more };

    // How many places there are.
    fn places(&self) -> u16
        ensures { result ≡ (means self.now).standing.places };

    // The type of a place, none where it is empty or outside 1 to n.
    fn type_of(&self, place: u16) -> Option<u16>
        ensures { result ≡ (means self.now).standing.type_at place };

    // Whether a right is held.
    fn is_held(&self, grant: Grant) -> bool
        ensures { result ≡ (means self.now).standing.held grant };

    // How many new rights can be entered for certain.
    fn room(&self) -> u32
        ensures { result ≡ (means self.now).room };

    // Has a right held: 5 if a number is out of range, 6 if a place is empty, 7 if it is new and there is no room.
    fn enter(&mut self, grant: Grant) -> Result<(), MatrixFault>
        ensures told { refusal result ≡ enter_refusal (means self.old) grant }
        ensures after { Accepted result (Entered (means self.old) grant (means self.new)) }
        ensures same { Refused result (self.new ≡ self.old) }
        ensures kept { frame.keeps self.old self.new };
}

// A matrix in which rights can be deleted and places created and destroyed.
pub trait Register: Matrix {
    // Has a right not held: 5 and 6 as for enter.
    fn delete(&mut self, grant: Grant) -> Result<(), MatrixFault>
        ensures told { refusal result ≡ delete_refusal (Self.Matrix.means self.old) grant }
        ensures after { Accepted result (Deleted (Self.Matrix.means self.old) grant (Self.Matrix.means self.new)) }
        ensures same { Refused result (self.new ≡ self.old) }
        ensures kept { Self.Matrix.frame.keeps self.old self.new };

    // Fills an empty place with a type: 5 if the place or the type is out of range, 6 if the place is filled.
    fn create(&mut self, place: u16, kind: u16) -> Result<(), MatrixFault>
        ensures told { refusal result ≡ create_refusal (Self.Matrix.means self.old) place kind }
        ensures after { Accepted result (Created (Self.Matrix.means self.old) place kind (Self.Matrix.means self.new)) }
        ensures same { Refused result (self.new ≡ self.old) }
        ensures kept { Self.Matrix.frame.keeps self.old self.new };

    // Empties a place, with every right that names it as row or as column: 5 if it is out of range, 6 if it is empty.
    fn destroy(&mut self, place: u16) -> Result<(), MatrixFault>
        ensures told { refusal result ≡ destroy_refusal (Self.Matrix.means self.old) place }
        ensures after { Accepted result (Destroyed (Self.Matrix.means self.old) place (Self.Matrix.means self.new)) }
        ensures same { Refused result (self.new ≡ self.old) }
        ensures kept { Self.Matrix.frame.keeps self.old self.new };
}
