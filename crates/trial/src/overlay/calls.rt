ghost use Rattle.std.specs.Prelude.{◌≡◌, ◌&&◌, [], refl};
ghost use Rattle.std.proofs.Common.{◌∙◌};
ghost use Rattle.matrix.specs.Listed.{listed};
ghost use Rattle.matrix.specs.Refusals.{refusal, delete_refusal};
ghost use Rattle.matrix.specs.Standing.{stands};
ghost use Rattle.trial.specs.Means.{own_rights, trial_means, trial_lawful};

use super::Trial;
use matrix::{Grant, Matrix, MatrixFault, judge_cell};
use records::ArrayList;

// What fills the slots that no right has yet.
const NO_RIGHT: Grant = Grant {
    right: 0,
    row: 0,
    column: 0,
};

impl<M: Matrix> Trial<M> {
    // A trial with no right of its own.
    pub fn new(below: M) -> Self
        ensures empty { own_rights result ≡ [] }
        ensures kept { result.below ≡ below }
    {
        Trial {
            below,
            own: ArrayList::new(NO_RIGHT),
        }
    }

    // What stands below, as it was handed over.
    pub fn below(&self) -> &M
        ensures { result.now ≡ self.now.below }
    {
        &self.below
    }

    // Ends the trial, and gives back what stands below.
    pub fn into_below(self) -> M
        ensures { result ≡ self.below }
    {
        let Trial { below, .. } = self;
        below
    }

    // 5 if a number of the grant is out of range, else 6 if its row or its column is empty.
    fn judge(&self, grant: Grant) -> Result<(), MatrixFault>
        ensures { refusal result ≡ delete_refusal (M.Matrix.means self.now.below) grant }
    {
        judge_cell(
            grant,
            self.below.places(),
            self.below.type_of(grant.row),
            self.below.type_of(grant.column),
        )
    }

    // Whether a right is one of the trial's own, its places being filled.
    fn holds_own(&self, grant: Grant) -> bool
        ensures { result ≡ (stands (M.Matrix.means self.now.below).standing.type_at grant && listed (own_rights self.now) grant) }
    {
        self.judge(grant).is_ok() && self.own.contains(&grant)
    }

    // Lets go of the trial's own rights.
    pub fn clear(&mut self)
        ensures empty { own_rights self.new ≡ [] }
        ensures kept { self.new.below ≡ self.old.below }
    {
        self.own.clear();
    }
}

impl<M: Matrix> Matrix for Trial<M> {
    ghost means = { trial_means M.Matrix.means };

    ghost lawful = { trial_lawful M.Matrix.means M.Matrix.lawful };

    // what stands below
    ghost frame = { record { keeps = λ t u. u.below ≡ t.below; begins = λ _. refl; chains = λ _ _ _ p q. q ∙ p } };

    fn places(&self) -> u16 {
        self.below.places()
    }

    fn type_of(&self, place: u16) -> Option<u16> {
        self.below.type_of(place)
    }

    // It looks below first.
    fn is_held(&self, grant: Grant) -> bool {
        self.below.is_held(grant) || self.holds_own(grant)
    }

    fn room(&self) -> u32 {
        (512 - self.own.as_slice().len()) as u32
    }

    // A right that stands below is no right of the trial's own.
    fn enter(&mut self, grant: Grant) -> Result<(), MatrixFault> {
        self.judge(grant)?;
        if self.below.is_held(grant) {
            return Ok(());
        }
        self.own.add(grant)?;
        Ok(())
    }
}
