// What the open blocks remember that come back, in one lent slice: since when the nodes stand at their places (`table::since`), then how many such blocks
// there are, and of each, the outermost first, its place and its cursor level.
ghost use Rattle.std.specs.Prelude.{◌≡◌, ◌-◌, ◌≤◌, ◌<◌, ltb, leb, length, set};
ghost use Rattle.rules.specs.Limits.{max_nodes, max_depth};
ghost use Rattle.table.specs.Since.{number};
ghost use Rattle.actions.specs.Marks.{count_at, place_at, level_at, marks_size, saving, dropping, Recalls};

use rules::limits::{MAX_DEPTH, MAX_NODES};
use table::since;

// How many numbers the slice has.
pub const SIZE: usize = MAX_NODES + 1 + 2 * MAX_DEPTH;

const COUNT: usize = MAX_NODES;

// Where the place of block k stands, and next to it its level.
const PLACES: usize = COUNT + 1;

// No block remembers a node; what stands behind the count is not read then.
pub fn clear(marks: &mut [u16])
    requires { marks_size ≤ length marks.old }
    ensures { marks.new ≡ set marks.old count_at 0 }
{
    marks[COUNT] = 0;
}

// Whether any block remembers a node.
pub(crate) fn any(marks: &[u16]) -> bool
    requires { marks_size ≤ length marks.now }
    ensures { result ≡ ltb 0 (number marks.now count_at) }
{
    0 < marks[COUNT]
}

// One block more, which remembers a place and a level.
pub(crate) fn save(marks: &mut [u16], place: usize, level: u8)
    requires { (marks_size ≤ length marks.old) × (place < max_nodes) }
    ensures { marks.new ≡ saving marks.old place level }
{
    let count = marks[COUNT];
    let k = usize::from(count);
    if k < MAX_DEPTH {
        since::keep(marks, place, count);
        marks[PLACES + 2 * k] = place as u16;
        marks[PLACES + 2 * k + 1] = u16::from(level);
        marks[COUNT] = (k + 1) as u16;
    }
}

// What a block remembers: a place, and the word of a cursor level.
#[derive(Debug, PartialEq, Eq, Drop)]
pub struct Saved {
    pub place: usize,
    pub level: u64,
}

// What the innermost block that comes back remembers; none where its node was removed.
pub(crate) fn recall(marks: &[u16], places: usize) -> Option<Saved>
    requires { (marks_size ≤ length marks.now) × (places ≤ max_nodes) }
    ensures { Recalls marks.now places result }
{
    let last = marks[COUNT].saturating_sub(1);
    let k = usize::from(last);
    if MAX_DEPTH <= k {
        return None;
    }
    let place = usize::from(marks[PLACES + 2 * k]);
    if place >= places || !since::stands(marks, place, last) {
        return None;
    }
    let level = u64::from(marks[PLACES + 2 * k + 1]);
    Some(Saved { place, level })
}

// The innermost block that comes back has ended.
pub(crate) fn drop(marks: &mut [u16])
    requires { marks_size ≤ length marks.old }
    ensures { marks.new ≡ dropping marks.old }
{
    marks[COUNT] = marks[COUNT].saturating_sub(1);
}
