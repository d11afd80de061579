ghost use Rattle.std.specs.Prelude.{◌≡◌, ℕ, ◌*◌, ◌<◌, ◌≤◌, length, drop, slice_index};
ghost use Rattle.matrix.specs.Stored.{blank};
ghost use Rattle.matrix.specs.Tables.{table_places};
ghost use Rattle.grid.specs.Means.{grid_means, beyond};
ghost use Rattle.grid.specs.Opening.{grid_judged, opened_grid};

use super::Grid;
use matrix::{MemoryFault, PlaceTable, is_within};

// Clears the first so many cells.
fn clear(cells: &mut [u32], count: usize)
    requires { count ≤ length cells.old }
    ensures zeros { (k : ℕ) → k < count → slice_index cells.new k ≡ 0 }
    ensures rest { drop count cells.new ≡ drop count cells.old }
{
    cells[..count].fill(0);
}

impl<'a> Grid<'a> {
    // Whether so many cells serve for a grid of so many places: 8 if not.
    pub fn check(places: u16, cells: usize) -> Result<(), MemoryFault>
        ensures { result ≡ grid_judged places cells }
    {
        if !is_within(places, 128) {
            Err(MemoryFault::Places)
        } else if cells < places as usize * places as usize {
            Err(MemoryFault::ShortGrid)
        } else {
            Ok(())
        }
    }

    // A grid of so many places, all empty, with no right held, whatever the memory held; its room is 32 × n × n.
    // Where `check` refuses, it has no places and no room. What lies beyond its cells is left alone.
    pub fn open(memory: &'a mut [u32], places: u16) -> Self
        ensures means { grid_means result ≡ opened_grid places (length memory.old) }
        ensures rest { beyond result ≡ drop (table_places result.table * table_places result.table) memory.old }
    {
        match Grid::check(places, memory.len()) {
            Ok(()) => Grid::over(memory, places),
            Err(_) => Grid::over(memory, 0),
        }
    }

    fn over(memory: &'a mut [u32], places: u16) -> Self
        requires few { places ≤ 128 }
        requires whole { places * places ≤ length memory.old }
        ensures means { grid_means result ≡ blank places (32 * (places * places)) }
        ensures rest { beyond result ≡ drop (table_places result.table * table_places result.table) memory.old }
    {
        clear(memory, places as usize * places as usize);
        Grid {
            table: PlaceTable::new(places),
            cells: memory,
        }
    }
}
