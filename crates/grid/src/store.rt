ghost use Rattle.std.specs.Prelude.{◌*◌, ◌≤◌, length};
ghost use Rattle.matrix.specs.Stored.{Sound};
ghost use Rattle.matrix.specs.Tables.{table_places};
ghost use Rattle.grid.specs.Cells.{in_cells};

use matrix::PlaceTable;

pub mod calls;
pub mod changes;
mod opens;

// n × n cells of lent memory, row after row; right k is bit k - 1. What lies beyond them is not the grid's.
// Each right in the cells is at filled places.
#[derive(Drop)]
pub struct Grid<'a> {
    table: PlaceTable,
    cells: &'a mut [u32],
    ghost whole: { table_places table * table_places table ≤ length cells.now },
    ghost sound: { Sound table (in_cells (table_places table) cells.now) },
}
