ghost use Rattle.std.specs.Prelude.{◌≡◌, ◌-◌, [], length, nat_lt, position};
ghost use Rattle.std.specs.List.{slice_get};
ghost use Rattle.records.specs.Bounded.{addition, with_added, with_out, UnlessAdded, Unless};
ghost use Rattle.records.specs.Lent.{items, capacity};

use crate::Full;

// The bounded list in memory that was handed over, as a rule of the project wants it; what lies beyond the records in use is free. It shares the
// functions of this crate with `ArrayList` and no trait: one that lends the slots would have to say in clauses what each function says once.
#[derive(Drop)]
pub struct BoundedList<'a, T> {
    records: &'a mut [T],
    used: usize,
}

impl<'a, T: Eq + Copy> BoundedList<'a, T> {
    // A list with no record in use, whatever the memory holds, which stays as it is.
    pub fn new(records: &'a mut [T]) -> Self
        ensures empty { items result ≡ [] }
        ensures memory { result.records.now ≡ records.old }
    {
        BoundedList { records, used: 0 }
    }

    // How many records are in use.
    pub fn len(&self) -> usize
        ensures { result ≡ length (items self.now) }
    {
        crate::len(self.records, self.used)
    }

    // How many more records the memory takes.
    pub fn free(&self) -> usize
        ensures { result ≡ capacity self.now - length (items self.now) }
    {
        self.records.len() - self.len()
    }

    // The record at a position, from 0, if one is in use there.
    pub fn at(&self, position: usize) -> Option<T>
        ensures { result ≡ slice_get (items self.now) position }
    {
        crate::at(self.records, self.used, position)
    }

    // The first position in use whose record equals the wanted one.
    pub fn find(&self, wanted: &T) -> Option<usize>
        ensures { result ≡ position (T.eq wanted.now) (items self.now) }
    {
        crate::find(self.records, self.used, wanted)
    }

    // Adds a record at the end, unless an equal one is there or the list is full; equality goes first.
    pub fn add(&mut self, item: T) -> Result<bool, Full>
        ensures told { result ≡ addition (T.eq item) (capacity self.old) (items self.old) }
        ensures after { items self.new ≡ with_added result item (items self.old) }
        ensures size { capacity self.new ≡ capacity self.old }
        ensures same { UnlessAdded result (self.new ≡ self.old) }
    {
        let mut used = self.used;
        let added = crate::add(self.records, &mut used, item);
        self.used = used;
        added
    }

    // Takes the record at a position out, if one is in use there, the others staying in order; tells whether one was.
    pub fn take_out(&mut self, position: usize) -> bool
        ensures told { result ≡ nat_lt position (length (items self.old)) }
        ensures after { items self.new ≡ with_out result position (items self.old) }
        ensures size { capacity self.new ≡ capacity self.old }
        ensures same { Unless result (self.new ≡ self.old) }
    {
        let mut used = self.used;
        let taken = crate::take_out(self.records, &mut used, position);
        self.used = used;
        taken
    }
}
