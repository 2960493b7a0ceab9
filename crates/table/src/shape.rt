// Nodes come and go: on a side of the cursor's node, which is in front of its children or right after it.
ghost use Rattle.std.specs.Prelude.{◌≡◌, ℕ, ◌<◌, ◌≤◌, length};
ghost use Rattle.std.proofs.Math.Option.{some};
ghost use Rattle.rules.specs.Tree.{Forest, Place, to, up};
ghost use Rattle.table.specs.Cells.{cells, label_new, word_of, side_of, left_on, Within};
ghost use Rattle.table.specs.Holds.{Holds};
ghost use Rattle.table.specs.Promises.{Leads, Added, Removed, Behind};
ghost use Rattle.table.specs.Since.{Forgets};
ghost use Rattle.table.specs.Steps.{Attached, Detached};

use super::cells::word_of;
use super::since::forget;
use super::{Side, Taken, cells, space, word_on};

// What a new node shows: its value, as its 32 bits, and its three levels.
#[derive(Debug, PartialEq, Eq, Drop)]
pub struct NewNode {
    pub value: u32,
    pub existence: u8,
    pub content: u8,
    pub structure: u8,
}

// The place of the left sibling that the first node on a side of the one at `at` has: none, or `at` itself.
fn left_on(at: usize, side: Side) -> usize
    ensures { result ≡ left_on (side_of side) at }
{
    match side {
        Side::First => super::NIL,
        Side::Right => at,
    }
}

// Links the place y in front of what stands on a side of the node at `at`, under the parent u.
fn attach(
    words: &mut [u32],
    places: usize,
    at: usize,
    side: Side,
    u: usize,
    y: usize,
    node: NewNode,
)
    requires { Within words.old places at × ((u < places) × (y < places)) }
    ensures { Attached (side_of side) (label_new node)
        (cells words.old) (cells words.new) places at u y }
{
    let word = word_on(side);
    let old = cells::get(words, places, at, word);
    let prev = left_on(at, side);
    cells::clear(words, places, y);
    cells::fill(words, places, y, old, word_of(u), word_of(prev), node);
    cells::store(words, places, at, word, word_of(y));
    cells::lead_back(words, places, old, u, word_of(y));
    cells::count_up(words, places, u);
}

// Takes the node at y out from a side of the one at `at`, under the parent u, and puts it onto the free places that `free` leads to.
fn detach(words: &mut [u32], places: usize, at: usize, side: Side, u: usize, y: usize, free: usize)
    requires { Within words.old places at × ((u < places) × (y < places)) }
    ensures { Detached (side_of side) (cells words.old) (cells words.new) places at u y (word_of free) }
{
    let next = cells::get(words, places, y, super::RIGHT);
    let prev = cells::get(words, places, y, cells::LEFT);
    cells::store(words, places, at, word_on(side), next);
    cells::lead_back(words, places, next, u, prev);
    cells::store(words, places, y, super::RIGHT, word_of(super::NIL));
    cells::store(words, places, y, cells::PARENT, word_of(free));
    cells::count_down(words, places, u);
}

// A new node in front of what stands on a side of the one at `at`, under the parent at `above`. There is no place for it where every place holds a
// live node.
pub fn add(
    words: &mut [u32],
    places: usize,
    used: usize,
    free: usize,
    at: usize,
    side: Side,
    above: usize,
    node: NewNode,
) -> Taken
    requires { Within words.old places at × (above < places) }
    ensures added { (t : Forest) (p : Place) → Holds (cells words.old) places used free at t p
        → Leads (cells words.old) places used free t (up (to (side_of side) p)) above
        → Added (side_of side) (label_new node)
        (cells words.old) (cells words.new) places used free at result.place result.free result.used t p }
    ensures behind { Behind places (cells words.old) (cells words.new) }
{
    let got = space::take(words, places, used, free);
    let y = got.place;
    if y < places {
        attach(words, places, at, side, above, y, node);
    }
    got
}

// Removes the node at `old`, the first on a side of the one at `at`, with its subtree; returns what leads to the free places then. Where blocks remember nodes,
// each node of the subtree is forgotten before. On either side its own cell leads to its parent, which it has in every tree.
pub fn remove(
    words: &mut [u32],
    places: usize,
    free: usize,
    at: usize,
    side: Side,
    old: usize,
    since: &mut [u16],
    remembered: bool,
) -> usize
    requires { Within words.old places at × ((old < places) × (places ≤ length since.old)) }
    ensures by_index { (used : ℕ) (t : Forest) (p : Place) → Holds (cells words.old) places used free at t p
        → Leads (cells words.old) places used free t (some (to (side_of side) p)) old
        → Removed (side_of side) (cells words.old) (cells words.new) places used free result at t p
        × Forgets remembered (side_of side) (cells words.old) places used free t p since.old since.new }
    ensures behind { Behind places (cells words.old) (cells words.new) }
{
    let u = cells::link(words, places, old, cells::PARENT);
    if u < places {
        if remembered {
            forget(words, places, old, since);
        }
        detach(words, places, at, side, u, old, free);
        return old;
    }
    free
}
