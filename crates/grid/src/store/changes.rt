ghost use Rattle.std.specs.Prelude.{◌≡◌, ℕ, ◌+◌, ◌-◌, ◌*◌, ◌<◌, ◌≤◌, true, length};
ghost use Rattle.matrix.specs.Ranges.{within};
ghost use Rattle.matrix.specs.Tables.{table_places};
ghost use Rattle.grid.specs.Means.{beyond};
ghost use Rattle.grid.specs.Cells.{in_cells, in_cells_but};

use super::Grid;
use super::calls::cell_of;
use matrix::{Grant, Matrix, MatrixFault, Register};

impl Grid<'_> {
    // Clears the row and the column of a place.
    fn wipe(&mut self, place: u16)
        requires { within place (table_places self.old.table) ≡ true }
        ensures cells { in_cells (table_places self.old.table) self.new.cells.now ≡ in_cells_but place (table_places self.old.table) self.old.cells.now }
        ensures table { self.new.table ≡ self.old.table }
        ensures rest { beyond self.new ≡ beyond self.old }
    {
        let n = self.table.places() as usize;
        let p = place as usize - 1;
        // by index: the cells of a row are a slice, but those of a column are none, and one loop does both
        for i in 0..n {
            self.cells[p * n + i] = 0;
            self.cells[i * n + p] = 0;
        }
    }
}

impl Register for Grid<'_> {
    fn delete(&mut self, grant: Grant) -> Result<(), MatrixFault> {
        self.table.judge_grant(grant)?;
        if self.is_held(grant) {
            let at = cell_of(grant, &self.table);
            self.cells[at] ^= 1 << (grant.right - 1);
        }
        Ok(())
    }

    fn create(&mut self, place: u16, kind: u16) -> Result<(), MatrixFault> {
        self.table.judge_create(place, kind)?;
        self.table.put(place, Some(kind));
        Ok(())
    }

    fn destroy(&mut self, place: u16) -> Result<(), MatrixFault> {
        self.table.judge_destroy(place)?;
        self.wipe(place);
        self.table.put(place, None);
        Ok(())
    }
}
