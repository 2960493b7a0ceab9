// A table that may hold anything: whether a tree stands in it, and which places are free then. The walk goes down to the first child, else right, else
// up. It needs the record of one place a turn, so that it serves words and lent records alike, however many places there are.
ghost use Rattle.std.specs.Prelude.{◌≡◌, true, ℕ, ◌+◌, ◌*◌, ◌<◌, ◌≤◌, get_or, length};
ghost use Rattle.rules.specs.Limits.{max_nodes};
ghost use Rattle.table.specs.Cells.{cell_size, cells, gone, word_of, label_with, ByteLevels, Within};
ghost use Rattle.lent.specs.Lent.{cell_of};
ghost use Rattle.table.specs.Promises.{Behind};
ghost use Rattle.lent.specs.Stands as Stands;
ghost use Rattle.lent.specs.Stands.{Marked, Reclaimed, Decided, Asked, label_fits, Ready, Rooms, Turned};
ghost use Rattle.table.specs.Steps.{Put, with_word};

use super::node::{Node, node_of};
use rules::levels::{PUBLIC, is_level, not_above};
use rules::limits::MAX_NODES;
use table::{PARENT, store, word_of};

// Where the walk is: at a link under the node at `up` and right of the one at `prev`, which is to lead to `due` siblings. Their existence is not below
// `lo` and not above `hi`. There are `deep` nodes above the link, and so many were entered.
#[derive(Clone, Copy, Debug, PartialEq, Eq)]
pub struct Spot {
    pub link: u32,
    pub up: u32,
    pub prev: u32,
    pub due: u32,
    pub lo: u8,
    pub hi: u8,
    pub deep: usize,
    pub entered: usize,
}

// The link to the root.
pub fn start() -> Spot
    ensures { result ≡ Stands.start }
{
    Spot {
        link: 0,
        up: 65535,
        prev: 65535,
        due: 1,
        lo: PUBLIC,
        hi: PUBLIC,
        deep: 0,
        entered: 0,
    }
}

// The place whose record the walk needs. At its end it needs none: `places` says that no tree stands in the table, one more that one does.
pub fn ask(s: Spot, places: usize) -> usize
    requires { places ≤ gone }
    ensures { Asked s places result }
{
    let y = s.link as usize;
    if y == table::NIL {
        if s.due > 0 {
            return places;
        }
        if s.deep == 0 {
            return places + 1;
        }
        return s.up as usize;
    }
    if s.entered >= MAX_NODES {
        return places;
    }
    if y >= places {
        return places;
    }
    y
}

// Whether three levels keep the tree rules, with the existence not below lo and not above hi.
fn label_fits(lo: u8, hi: u8, e: u8, c: u8, s: u8) -> bool
    ensures value { result ≡ label_fits lo hi (label_with 0 e c s) }
    ensures byte_levels { ByteLevels (label_with 0 e c s) }
{
    is_level(e)
        & is_level(c)
        & is_level(s)
        & not_above(lo, e)
        & not_above(e, hi)
        & not_above(e, c)
        & not_above(e, s)
}

// Whether the record d can be that of the node that the link leads to.
fn admits(s: Spot, d: Node) -> bool
    ensures value { result ≡ Stands.admits s d }
    ensures byte_levels { ByteLevels (cell_of d).label }
{
    (d.parent == s.up)
        & (d.left == s.prev)
        & (s.due > 0)
        & label_fits(s.lo, s.hi, d.existence, d.content, d.structure)
}

// Whether the record d can be that of the node above, at the end of the list of its children.
fn closes(s: Spot, d: Node) -> bool
    ensures { result ≡ Stands.closes s d }
{
    d.last == s.prev
}

// Up from the end of a list, and on right of the node above, whose record is d.
fn leave(s: Spot, d: Node, due: u32, hi: u8) -> Spot
    requires { 0 < s.deep }
    ensures { result ≡ Stands.leave s d due hi }
{
    Spot {
        link: d.right,
        up: d.parent,
        prev: s.up,
        due: due,
        lo: d.existence,
        hi: hi,
        deep: s.deep - 1,
        entered: s.entered,
    }
}

// Down to the children of the node that the link leads to, whose record is d.
fn enter(s: Spot, d: Node) -> Spot
    requires { (s.deep < max_nodes) × (s.entered ≤ max_nodes) }
    ensures { result ≡ Stands.enter s d }
{
    Spot {
        link: d.first,
        up: s.link,
        prev: 65535,
        due: d.children,
        lo: d.existence,
        hi: d.structure,
        deep: s.deep + 1,
        entered: s.entered + 1,
    }
}

// No tree can stand in the table: a list that is too short.
fn stuck(s: Spot) -> Spot
    ensures { result ≡ Stands.stuck s }
{
    Spot {
        link: 65535,
        due: 1,
        ..s
    }
}

// Marks a place, if it is one of the first 512.
fn mark(marks: &mut [u8], y: u32)
    requires { max_nodes ≤ length marks.old }
    ensures { marks.new ≡ Stands.mark marks.old y }
{
    let at = y as usize;
    if at < MAX_NODES {
        marks[at] = 1;
    }
}

// One turn, with the record d of the place that was asked for. For each depth `dues` has the siblings due there, `bounds` what bounds their existence.
pub fn turn(s: Spot, d: Node, dues: &mut [u32], bounds: &mut [u8], marks: &mut [u8]) -> Spot
    requires { Ready s × Rooms dues.old bounds.old marks.old }
    ensures { Turned s d dues.old bounds.old marks.old dues.new bounds.new marks.new result }
{
    if s.link as usize == table::NIL {
        if !closes(s, d) {
            return stuck(s);
        }
        let at = s.deep - 1;
        return leave(s, d, dues[at], bounds[at]);
    }
    if !admits(s, d) {
        return stuck(s);
    }
    let at = s.deep;
    dues[at] = s.due - 1;
    bounds[at] = s.hi;
    mark(marks, s.link);
    enter(s, d)
}

// Whether the levels of place x are bytes.
fn plain(words: &[u32], x: usize) -> bool
    requires { cell_size * x + cell_size ≤ length words.now }
    ensures { (result ≡ true → ByteLevels (cells words.now x).label) × (ByteLevels (cells words.now x).label → result ≡ true) }
{
    let at = table::CELL * x;
    if words[at + 3] >= 256 {
        return false;
    }
    if words[at + 6] >= 256 {
        return false;
    }
    words[at + 7] < 256
}

// Whether the levels of place x are bytes, asked only where a node is entered: where the link leads to none, the walk goes up to one that it has entered.
fn readable(words: &[u32], link: u32, x: usize) -> bool
    requires { cell_size * x + cell_size ≤ length words.now }
    ensures { (result ≡ true → (link ≡ gone → ⊥) → ByteLevels (cells words.now x).label) × (ByteLevels (cells words.now x).label → result ≡ true) }
{
    if link as usize == table::NIL {
        return true;
    }
    plain(words, x)
}

// Leaves all places with no mark.
fn clear(marks: &mut [u8])
    requires { max_nodes ≤ length marks.old }
    ensures { (z : ℕ) → z < max_nodes → get_or marks.new z 0 ≡ 0 }
{
    marks[..MAX_NODES].fill(0);
}

// Whether a tree stands in the words; if so, its places have a mark then, if they are among the first 512, and no others.
pub fn held(
    words: &[u32],
    places: usize,
    dues: &mut [u32],
    bounds: &mut [u8],
    marks: &mut [u8],
) -> bool
    requires { ((cell_size * places ≤ length words.now) × (places ≤ gone)) × Rooms dues.old bounds.old marks.old }
    ensures decided { Decided (cells words.now) places result }
    ensures marked { result ≡ true → Marked (cells words.now) places marks.new }
{
    clear(marks);
    let mut s = start();
    let mut x = ask(s, places);
    while x < places {
        if !readable(words, s.link, x) {
            return false;
        }
        let d = node_of(words, x);
        s = turn(s, d, dues, bounds, marks);
        x = ask(s, places);
    }
    x > places
}

// Leaves x a free place by itself, in front of those that `free` leads to.
fn spare(words: &mut [u32], places: usize, x: usize, free: usize)
    requires { Within words.old places x }
    ensures { Put (cells words.old) (cells words.new) x
        (with_word 2 (word_of free) (with_word 1 gone (with_word 0 gone (cells words.old x)))) }
{
    store(words, places, x, table::FIRST, word_of(table::NIL));
    store(words, places, x, table::RIGHT, word_of(table::NIL));
    store(words, places, x, PARENT, word_of(free));
}

// Makes the places with no mark the free ones; returns what leads to them. The first of them comes first.
pub fn reclaim(words: &mut [u32], places: usize, marks: &[u8]) -> usize
    requires { ((cell_size * places ≤ length words.old) × (places ≤ max_nodes)) × (max_nodes ≤ length marks.now) }
    ensures reclaimed { Reclaimed (cells words.old) (cells words.new) places marks.now result }
    ensures behind { Behind places (cells words.old) (cells words.new) }
{
    let mut free = table::NIL;
    for x in (0..places).rev() {
        if marks[x] == 0 {
            spare(words, places, x, free);
            free = x;
        }
    }
    free
}
