// One bounded list for every kind of record that can tell equality: a slice of records and the number in use, in lent memory or in an array.
#![tactic(auto)]

ghost use Rattle.std.specs.Prelude.{◌≡◌, ◌≤◌, length, nat_lt, position, take};
ghost use Rattle.std.specs.List.{list_any, slice_get};
ghost use Rattle.records.specs.Bounded.{addition, with_added, with_out, UnlessAdded, Unless};

mod arrays;
mod lent;

pub use arrays::ArrayList;
pub use lent::BoundedList;

// Why a record does not join a list: there is memory for no more.
#[derive(Clone, Copy, PartialEq, Eq, Debug)]
pub struct Full;

// The functions below take a slice and the number in use, side by side: one list over any slice is a form that the project names, and both
// holders hand on to them.

// The records in use, in order: as many as the number says, or all.
pub fn in_use<T>(records: &[T], used: usize) -> &[T]
    ensures { result.now ≡ take used records.now }
{
    records.get(..used).unwrap_or(records)
}

// How many records are in use: as many as the number says, or all.
pub fn len<T>(records: &[T], used: usize) -> usize
    ensures value { result ≡ length (take used records.now) }
    ensures bound { result ≤ length records.now }
{
    used.min(records.len())
}

// The record at a position, from 0, if one is in use there.
pub fn at<T: Copy>(records: &[T], used: usize, position: usize) -> Option<T>
    ensures { result ≡ slice_get (take used records.now) position }
{
    in_use(records, used).get(position).copied()
}

// The first position in use, from 0, whose record equals the wanted one. It looks no further than the match.
pub fn find<T: Eq>(records: &[T], used: usize, wanted: &T) -> Option<usize>
    ensures { result ≡ position (T.eq wanted.now) (take used records.now) }
{
    in_use(records, used).iter().position(|x| wanted == x)
}

fn has<T: Eq>(records: &[T], wanted: &T) -> bool
    ensures { result ≡ list_any (T.eq wanted.now) records.now }
{
    records.iter().any(|x| wanted == x)
}

// Adds a record at the end, unless an equal one is there or the list is full; equality goes first. It tells whether the record was added.
pub fn add<T: Eq + Copy>(records: &mut [T], used: &mut usize, item: T) -> Result<bool, Full>
    ensures told { result ≡ addition (T.eq item) (length records.old) (take used.old records.old) }
    ensures after { take used.new records.new ≡ with_added result item (take used.old records.old) }
    ensures same { UnlessAdded result ((records.new ≡ records.old) × (used.new ≡ used.old)) }
{
    if has(in_use(records, *used), &item) {
        return Ok(false);
    }
    if *used >= records.len() {
        return Err(Full);
    }
    records[*used] = item;
    *used += 1;
    Ok(true)
}

// Takes the record at a position out, if one is in use there, the others staying in order; tells whether one was.
pub fn take_out<T: Copy>(records: &mut [T], used: &mut usize, position: usize) -> bool
    ensures told { result ≡ nat_lt position (length (take used.old records.old)) }
    ensures after { take used.new records.new ≡ with_out result position (take used.old records.old) }
    ensures same { Unless result ((records.new ≡ records.old) × (used.new ≡ used.old)) }
{
    let n = len(records, *used);
    if position >= n {
        return false;
    }
    records.copy_within(position + 1..n, position);
    *used = n - 1;
    true
}
