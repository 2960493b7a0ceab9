// The cursor's moves: each gives the place of the node moved to, or a number that is no place where there is none. A move is one load, and the step that
// asked for it makes one test of the number; an option would be a second word and a second test.
ghost use Rattle.std.proofs.Math.Option.{some};
ghost use Rattle.std.specs.Prelude.{ℕ};
ghost use Rattle.rules.specs.Tree.{Forest, Place, to, up, left_of, last_of};
ghost use Rattle.rules.specs.Tree as Tree;
ghost use Rattle.table.specs.Cells.{Table, cells, side_of, Within};
ghost use Rattle.table.specs.Holds.{Holds};
ghost use Rattle.table.specs.Promises.{Leads};

use super::{Side, cells, word_on};

// To the root.
pub fn root() -> usize
    ensures { (m : Table) (n used free x : ℕ) (t : Forest) (p : Place) → Holds m n used free x t p → Holds m n used free result t Tree.root }
{
    0
}

// Up to the parent.
pub fn parent(words: &[u32], places: usize, at: usize) -> usize
    requires { Within words.now places at }
    ensures { (used free : ℕ) (t : Forest) (p : Place) → Holds (cells words.now) places used free at t p
        → Leads (cells words.now) places used free t (up p) result }
{
    cells::link(words, places, at, cells::PARENT)
}

// Down to the first child, or on to the right sibling.
pub fn beside(words: &[u32], places: usize, at: usize, side: Side) -> usize
    requires { Within words.now places at }
    ensures { (used free : ℕ) (t : Forest) (p : Place) → Holds (cells words.now) places used free at t p
        → Leads (cells words.now) places used free t (some (to (side_of side) p)) result }
{
    cells::link(words, places, at, word_on(side))
}

// Back to the left sibling.
pub fn left(words: &[u32], places: usize, at: usize) -> usize
    requires { Within words.now places at }
    ensures { (used free : ℕ) (t : Forest) (p : Place) → Holds (cells words.now) places used free at t p
        → Leads (cells words.now) places used free t (left_of p) result }
{
    cells::link(words, places, at, cells::LEFT)
}

// Down to the last child.
pub fn last(words: &[u32], places: usize, at: usize) -> usize
    requires { Within words.now places at }
    ensures { (used free : ℕ) (t : Forest) (p : Place) → Holds (cells words.now) places used free at t p
        → Leads (cells words.now) places used free t (last_of p t) result }
{
    cells::link(words, places, at, cells::LAST)
}
