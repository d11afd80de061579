ghost use Rattle.std.specs.Prelude.{◌≡◌, ◌≤◌, true};
ghost use Rattle.records.specs.Lent.{items, capacity};
ghost use Rattle.matrix.specs.Listed.{listed};
ghost use Rattle.matrix.specs.Stored.{Sound};
ghost use Rattle.grant_list.specs.Grants.{apart};

use matrix::{Grant, PlaceTable};
use records::BoundedList;

pub mod calls;
pub mod changes;
mod opens;

// A record of lent memory for each right held. Each is at filled places, and none stands there twice.
#[derive(Drop)]
pub struct GrantList<'a> {
    table: PlaceTable,
    grants: BoundedList<'a, Grant>,
    ghost fits: { capacity grants ≤ 4096 },
    ghost sound: { Sound table (listed (items grants)) },
    ghost distinct: { apart (items grants) ≡ true },
}
