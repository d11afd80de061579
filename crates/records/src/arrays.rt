ghost use Rattle.std.specs.Prelude.{◌≡◌, ◌≤◌, [], ◌∷◌, ◌++◌, length, nat_lt, slice_set, take};
ghost use Rattle.std.specs.List.{list_any};
ghost use Rattle.std.specs.Cmp.Lexicographic.{pointwise};
ghost use Rattle.std.specs.Cmp.Rules.{comparing};
ghost use Rattle.std.proofs.Common.{rules};
ghost use Rattle.refusals.specs.Refusals.{Accepted, Refused};
ghost use Rattle.records.specs.Arrays.{elements};
ghost use Rattle.records.specs.Bounded.{addition, pushing, with_added, Unless, UnlessAdded};

use crate::Full;

// At most N records, in an array with the number in use; what lies beyond them is free. No `Vec`: a rule of the project is that memory is
// fixed or handed over, so that no call of the engine fails for want of it. No `ArrayVec` of the kit: it is not copied, and schemes are. No
// `impl Model`: a view forgets the free slots, and "a refused call leaves the whole value as it was" would say less.
#[derive(Clone, Copy)]
pub struct ArrayList<T, const N: usize> {
    records: [T; N],
    used: usize,
}

impl<T, const N: usize> ArrayList<T, N> {
    // The records in use, in order.
    pub fn as_slice(&self) -> &[T]
        ensures value { result.now ≡ elements self.now }
        ensures few { length result.now ≤ N }
    {
        crate::in_use(&self.records, self.used)
    }
}

impl<T: Copy, const N: usize> ArrayList<T, N> {
    // No record in use; each slot of the array holds the blank.
    pub fn new(blank: T) -> Self
        ensures { elements result ≡ [] }
    {
        ArrayList {
            records: [blank; N],
            used: 0,
        }
    }

    // The first N of these records; each slot beyond them holds the blank.
    pub fn first_of(records: &[T], blank: T) -> Self
        ensures { elements result ≡ take N records.now }
    {
        let used = records.len().min(N);
        let mut all = [blank; N];
        all[..used].copy_from_slice(&records[..used]);
        ArrayList { records: all, used }
    }

    // Adds a record at the end, unless there are N.
    pub fn push(&mut self, item: T) -> Result<(), Full>
        ensures told { result ≡ pushing N (elements self.old) }
        ensures after { Accepted result (elements self.new ≡ elements self.old ++ (item ∷ [])) }
        ensures same { Refused result (self.new ≡ self.old) }
    {
        if self.used >= N {
            return Err(Full);
        }
        self.records[self.used] = item;
        self.used += 1;
        Ok(())
    }

    // Puts a record in the place of the one at a position, if one is in use there; tells whether one was.
    pub fn put(&mut self, position: usize, item: T) -> bool
        ensures told { result ≡ nat_lt position (length (elements self.old)) }
        ensures after { elements self.new ≡ slice_set (elements self.old) position item }
        ensures same { Unless result (self.new ≡ self.old) }
    {
        if position >= self.as_slice().len() {
            return false;
        }
        self.records[position] = item;
        true
    }

    // Lets go of all records.
    pub fn clear(&mut self)
        ensures { elements self.new ≡ [] }
    {
        self.used = 0;
    }
}

impl<T: Eq + Copy, const N: usize> ArrayList<T, N> {
    // Whether an equal record is in use.
    pub fn contains(&self, wanted: &T) -> bool
        ensures { result ≡ list_any (T.eq wanted.now) (elements self.now) }
    {
        crate::has(self.as_slice(), wanted)
    }

    // Adds a record at the end, unless an equal one is there or there are N; equality goes first. It tells whether the record was added.
    pub fn add(&mut self, item: T) -> Result<bool, Full>
        ensures told { result ≡ addition (T.eq item) N (elements self.old) }
        ensures after { elements self.new ≡ with_added result item (elements self.old) }
        ensures same { UnlessAdded result (self.new ≡ self.old) }
    {
        crate::add(&mut self.records, &mut self.used, item)
    }
}

// Two lists are equal if their records in use are; a derive would compare the free slots too.
impl<T: PartialEq, const N: usize> PartialEq for ArrayList<T, N> {
    ghost eq = { λ x y. pointwise T.eq (elements x) (elements y) };

    ghost laws = { Prim.search (comparing, rules) };

    fn eq(&self, other: &Self) -> bool {
        self.as_slice() == other.as_slice()
    }
}

impl<T: Eq, const N: usize> Eq for ArrayList<T, N> {
    ghost laws = { Prim.search (comparing, rules) };
}
