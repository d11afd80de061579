ghost use Rattle.std.specs.Prelude.{◌≡◌, ◌≤◌, length};
ghost use Rattle.matrix.specs.Stored.{blank};
ghost use Rattle.grant_list.specs.Means.{list_means};
ghost use Rattle.grant_list.specs.Opening.{list_judged, opened_list};

use super::GrantList;
use matrix::{Grant, MemoryFault, PlaceTable, is_within};
use records::BoundedList;

impl<'a> GrantList<'a> {
    // Whether so many records serve for a grant list of so many places: 8 if not. There may be no record at all.
    pub fn check(places: u16, records: usize) -> Result<(), MemoryFault>
        ensures { result ≡ list_judged places records }
    {
        if !is_within(places, 128) {
            Err(MemoryFault::Places)
        } else if records > 4096 {
            Err(MemoryFault::LongList)
        } else {
            Ok(())
        }
    }

    // A grant list of so many places, all empty, with no right held, whatever the memory held; its room is the number of records.
    // Where `check` refuses, it has no places and no room, and the memory is left alone.
    pub fn open(memory: &'a mut [Grant], places: u16) -> Self
        ensures { list_means result ≡ opened_list places (length memory.old) }
    {
        match GrantList::check(places, memory.len()) {
            Ok(()) => GrantList::over(memory, places),
            Err(_) => GrantList::over(&mut memory[0..0], 0),
        }
    }

    fn over(memory: &'a mut [Grant], places: u16) -> Self
        requires places_bound { places ≤ 128 }
        requires memory_len_bound { length memory.old ≤ 4096 }
        ensures { list_means result ≡ blank places (length memory.old) }
    {
        GrantList {
            table: PlaceTable::new(places),
            grants: BoundedList::new(memory),
        }
    }
}
