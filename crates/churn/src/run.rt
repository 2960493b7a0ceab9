// The table's operations at the cursor, each counted, in a table of 512 places.
ghost use Rattle.std.specs.Prelude.{◌≡◌, ◌+◌, ◌%◌, ◌^◌, ◌<◌, true, false};

use table::{NIL, Side, Taken, WORDS, node, shape, walk};

const PLACES: usize = 512;

// The table, the cursor, the free places, and what was counted so far.
#[derive(Clone, Copy)]
pub struct Run {
    words: [u32; WORDS],
    pub at: usize,
    used: usize,
    free: usize,
    pub operations: u64,
    pub added: u64,
    pub refused: u64,
    pub removed: u64,
    pub faults: u64,
}

// A place of the table.
fn place(at: usize) -> usize
    ensures { result < 512 }
{
    if at < PLACES { at } else { 0 }
}

impl Run {
    // The tree of one node record, with the cursor at its root.
    pub fn new() -> Run {
        let job = [255u8, 255, 0, 0, 0, 0, 0, 0, 0, 0, 0, 0];
        let mut words = [0u32; WORDS];
        table::records::load(&job, 0, 1, &mut words);
        Run {
            words: words,
            at: 0,
            used: 1,
            free: NIL,
            operations: 0,
            added: 0,
            refused: 0,
            removed: 0,
            faults: 0,
        }
    }

    // Counts an operation.
    fn count(&mut self)
        ensures { (self.new.at ≡ self.old.at) × (self.new.faults ≡ self.old.faults) }
    {
        self.operations = self.operations.wrapping_add(1);
    }

    // Counts a fault unless all is well.
    pub fn must(&mut self, well: bool)
        ensures { (self.new.at ≡ self.old.at) × ((well ≡ true → self.new.faults ≡ self.old.faults) × (well ≡ false → self.new.faults ≡ (self.old.faults + 1) % 2 ^ 64)) }
    {
        if !well {
            self.faults = self.faults.wrapping_add(1);
        }
    }

    // Goes to the root.
    pub fn home(&mut self)
        ensures { (self.new.at ≡ 0) × (self.new.faults ≡ self.old.faults) }
    {
        self.count();
        self.at = 0;
    }

    // Goes to a place, if it is one; tells whether.
    fn arrive(&mut self, to: usize) -> bool {
        self.count();
        if to < PLACES {
            self.at = to;
            return true;
        }
        false
    }

    // Tries to go to the first child or the right sibling; tells whether there is one.
    pub fn try_side(&mut self, side: Side) -> bool {
        let to = walk::beside(&self.words, PLACES, place(self.at), side);
        self.arrive(to)
    }

    // Tries to go up; tells whether there is a parent.
    pub fn try_up(&mut self) -> bool {
        let to = walk::parent(&self.words, PLACES, place(self.at));
        self.arrive(to)
    }

    // Goes to the first child or the right sibling, which must be there.
    pub fn go_side(&mut self, side: Side) {
        let arrived = self.try_side(side);
        self.must(arrived);
    }

    // Goes up, where there must be a parent.
    pub fn go_up(&mut self) {
        let arrived = self.try_up();
        self.must(arrived);
    }

    // The place of the parent that nodes on a side of the one at `at` have, or no place.
    fn parent_on(&self, at: usize, side: Side) -> usize
        requires { at < 512 }
    {
        match side {
            Side::First => at,
            Side::Right => walk::parent(&self.words, PLACES, at),
        }
    }

    // Tries to add a node of a value on a side: there is none beside the root.
    fn attempt(&mut self, side: Side, value: u32) -> Taken {
        let n = shape::NewNode {
            value: value,
            existence: 0,
            content: 0,
            structure: 0,
        };
        let at = place(self.at);
        let above = self.parent_on(at, side);
        if above >= PLACES {
            return Taken {
                place: NIL,
                free: self.free,
                used: self.used,
            };
        }
        shape::add(
            &mut self.words,
            PLACES,
            self.used,
            self.free,
            at,
            side,
            above,
            n,
        )
    }

    // Adds a node of a value on a side, which must come out as the last argument says.
    pub fn add(&mut self, side: Side, value: u32, well: bool) {
        let got = self.attempt(side, value);
        let ok = got.place < PLACES;
        self.count();
        self.used = got.used;
        self.free = got.free;
        if ok {
            self.added = self.added.wrapping_add(1);
        } else {
            self.refused = self.refused.wrapping_add(1);
        }
        self.must(ok == well);
    }

    // Removes what must stand on a side.
    pub fn remove(&mut self, side: Side) {
        let at = place(self.at);
        let old = walk::beside(&self.words, PLACES, at, side);
        self.count();
        if old >= PLACES {
            self.must(false);
            return;
        }
        self.removed = self.removed.wrapping_add(1);
        let mut since = [0u16; PLACES];
        self.free = shape::remove(
            &mut self.words,
            PLACES,
            self.free,
            at,
            side,
            old,
            &mut since,
            true,
        );
    }

    // The node must have a number of children.
    pub fn children(&mut self, n: u32) {
        let found = node::children(&self.words, PLACES, place(self.at));
        self.count();
        self.must(found == n);
    }

    // The node must have a value.
    pub fn value(&mut self, v: u32) {
        let found = node::value(&self.words, PLACES, place(self.at));
        self.count();
        self.must(found == v);
    }
}
