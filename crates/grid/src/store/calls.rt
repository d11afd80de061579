ghost use Rattle.std.specs.Prelude.{◌≡◌, ℕ, ◌+◌, ◌-◌, ◌*◌, ◌^◌, ◌<◌, ◌≤◌, Bool, true, length, sum_by, refl};
ghost use Rattle.std.proofs.Common.{◌∙◌};
ghost use Rattle.matrix.specs.Grants.{in_range};
ghost use Rattle.matrix.specs.Tables.{table_places};
ghost use Rattle.grid.specs.Cells.{cell_at, bits};
ghost use Rattle.grid.specs.Means.{grid_means, grid_lawful, beyond};

use super::Grid;
use matrix::{Grant, Matrix, MatrixFault, PlaceTable};

// Where the cell of a grant lies, in a grid with these places.
pub(crate) fn cell_of(grant: Grant, table: &PlaceTable) -> usize
    requires { in_range (table_places table.now) grant ≡ true }
    ensures at { result ≡ cell_at (table_places table.now) grant }
    ensures bound { result < table_places table.now * table_places table.now }
{
    (grant.row - 1) as usize * table.places() as usize + (grant.column - 1) as usize
}

// How many bits of the cells are set.
fn count(cells: &[u32]) -> u32
    requires { length cells.now ≤ 16384 }
    ensures { result ≡ sum_by bits cells.now }
{
    cells.iter().map(|c| c.count_ones()).sum()
}

impl Matrix for Grid<'_> {
    ghost means = { grid_means };

    ghost lawful = { grid_lawful };

    // the cells beyond n × n
    ghost frame = { record { keeps = λ x y. beyond y ≡ beyond x; begins = λ _. refl; chains = λ _ _ _ p q. q ∙ p } };

    fn places(&self) -> u16 {
        self.table.places()
    }

    fn type_of(&self, place: u16) -> Option<u16> {
        self.table.type_of(place)
    }

    fn is_held(&self, grant: Grant) -> bool {
        if !self.table.judge_grant(grant).is_ok() {
            return false;
        }
        self.cells[cell_of(grant, &self.table)] >> (grant.right - 1) & 1 == 1
    }

    fn room(&self) -> u32 {
        let n = self.table.places() as usize;
        (32 * (n * n)) as u32 - count(&self.cells[0..n * n])
    }

    fn enter(&mut self, grant: Grant) -> Result<(), MatrixFault> {
        self.table.judge_grant(grant)?;
        let at = cell_of(grant, &self.table);
        self.cells[at] |= 1 << (grant.right - 1);
        Ok(())
    }
}
