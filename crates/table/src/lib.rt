// The node table: the tree of a run in one lent slice of words, CELL to a place. A place is a number below `places`, the number of places
// lent; a link to no node holds NIL, which is no place.
#![tactic(auto)]

ghost use Rattle.std.specs.Prelude.{◌≡◌, ◌<◌};
ghost use Rattle.table.specs.Cells.{side_of, word_on};

mod cells;
mod levels;
pub mod node;
pub mod records;
pub mod shape;
pub mod since;
mod space;
pub mod walk;

pub use cells::{PARENT, store, word_of};
pub use levels::low;
use rules::limits::MAX_NODES;

// How many words a place takes.
pub const CELL: usize = 10;

// How many words the largest table takes.
pub const WORDS: usize = CELL * MAX_NODES;

// The link to no node. It is a number, as a link is, and no option: a step makes one test of what it read, whether that is a place.
pub const NIL: usize = 65535;

// The words of the links to the two sides of a node.
pub const FIRST: usize = 0;

pub const RIGHT: usize = 1;

// The two sides of a node: where its first child stands, and where its right sibling does.
#[derive(Clone, Copy, Debug, PartialEq, Eq)]
pub enum Side {
    First,
    Right,
}

// The word of the link to a side.
fn word_on(side: Side) -> usize
    ensures { (result ≡ word_on (side_of side)) × (result < 2) }
{
    match side {
        Side::First => FIRST,
        Side::Right => RIGHT,
    }
}

// The place of a new node, or NIL where there is none for it, and what leads to the free places and the first never-used place then. All three are numbers
// as they stand in the words, since an option of a place would be one word and one test more in each step that adds a node.
#[derive(Debug, PartialEq, Eq, Drop)]
pub struct Taken {
    pub place: usize,
    pub free: usize,
    pub used: usize,
}
