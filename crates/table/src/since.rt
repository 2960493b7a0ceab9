// Since when nodes stand at their places. A block may remember a node by its place. The open blocks that do are numbered, 0 the outermost. The node that
// block k remembers at x stands there still exactly where since[x] <= k: the block sees to that when it is opened, a removal clears the numbers of its whole
// subtree, and a block that is opened later has a larger number. What stands in `since` for a place that no open block remembers does not matter.
ghost use Rattle.std.specs.Prelude.{◌≡◌, ◌*◌, ◌≤◌, ◌<◌, leb, length};
ghost use Rattle.rules.specs.Limits.{max_nodes};
ghost use Rattle.table.specs.Cells.{cell_size, cells, Within};
ghost use Rattle.table.specs.Since.{number, kept, Clears, Clearing};

use super::cells::word_of;
use super::{cells, space};

// Above every block's number.
const NEVER: u16 = 65535;

// Block k remembers the node at x. A number is stored only where it is smaller; the lesser of two would be stored each time.
pub fn keep(since: &mut [u16], x: usize, k: u16)
    requires { x < length since.old }
    ensures { since.new ≡ kept since.old x k }
{
    if k < since[x] {
        since[x] = k;
    }
}

// Whether the node that block k remembers at x stands there still.
pub fn stands(since: &[u16], x: usize, k: u16) -> bool
    requires { x < length since.now }
    ensures { result ≡ leb (number since.now x) k }
{
    since[x] <= k
}

// Clears the places of the stack of forests that x leads to: as many as there may be, whatever the links say; counted down, which is an
// instruction less for each. The stack is taken apart by parent words, which nobody reads below a node that goes.
fn clear(words: &mut [u32], places: usize, x: usize, since: &mut [u16])
    requires { (cell_size * places ≤ length words.old) × ((places ≤ max_nodes) × (places ≤ length since.old)) }
    ensures { Clears places (cells words.old) (cells words.new) x since.old since.new }
{
    let mut next = x;
    for _left in (0..places).rev() {
        if next >= places {
            return;
        }
        since[next] = NEVER;
        next = space::pop(words, places, next);
    }
}

// Clears the place x of a node that goes, and those of all below it.
pub(crate) fn forget(words: &mut [u32], places: usize, x: usize, since: &mut [u16])
    requires { Within words.old places x × (places ≤ length since.old) }
    ensures { Clearing places (cells words.old) (cells words.new) x since.old since.new }
{
    since[x] = NEVER;
    let first = cells::get(words, places, x, super::FIRST);
    let below = space::push(words, places, first, word_of(super::NIL));
    clear(words, places, below as usize, since);
}
