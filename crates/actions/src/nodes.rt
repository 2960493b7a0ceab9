// The actions on nodes: commands 11 to 15.
ghost use Rattle.std.specs.Prelude.{◌≡◌, List, ℕ, ◌*◌, ◌≤◌, ◌<◌, ℤ, length};
ghost use Rattle.rules.specs.Limits.{max_nodes};
ghost use Rattle.rules.specs.Tree.{child, sibling, to, up};
ghost use Rattle.rules.specs.Run as Run;
ghost use Rattle.rules.specs.Script.{Expression};
ghost use Rattle.table.specs.Cells.{cell_size, Within, side_of};
ghost use Rattle.actions.specs.Shows.{slices};
ghost use Rattle.actions.specs.Stands.{Timely};
ghost use Rattle.actions.specs.Marks.{marks_size};
ghost use Rattle.actions.specs.Acts.{shifted, closed_up, Same, Becomes, Acting, Acts, Evaluates, MayTouch, MayAdd, new_node, Placed, InsertsOn};

use super::control::{Running, Stepped, halt, onward, with_memory};
use super::evaluate::Valued;
use super::marks;
use super::memory::{Memory, flow, position};
use rules::levels::{join, not_above};
use rules::limits::{ABSENT, FLOW, OVERFLOW, TABLE_FULL};
use rules::numbers;
use table::{Side, Taken, node, shape, walk};

// Whether C is not above the existence of the node at a place, if it is one.
fn may_touch(words: &[u32], places: usize, m: Memory, c: u8, place: usize) -> bool
    requires { (cell_size * places ≤ length words.now) × (places ≤ max_nodes) }
    ensures { MayTouch words.now places m c place result }
{
    if place >= places {
        return true;
    }
    not_above(c, node::existence(words, places, place))
}

// Whether the level c may add a node under the one at `above`, in front of what is at `old`.
fn may_add(words: &[u32], places: usize, m: Memory, above: usize, old: usize, c: u8) -> bool
    requires { Within words.now places m.cursor × (above < places) }
    ensures { MayAdd words.now places m above old c result }
{
    if !not_above(c, node::structure(words, places, above)) {
        return false;
    }
    may_touch(words, places, m, c, old)
}

// What a new node shows, with the value z of the level E; its content and its list join a set each.
fn new_node(z: i32, e: u8, content: u8, list: u8, pc: u8, m: Memory) -> shape::NewNode
    ensures { result ≡ new_node z e content list pc m }
{
    let c = position(pc, m);
    shape::NewNode {
        value: numbers::bits(z),
        existence: c,
        content: join(flow(e, pc, m), content),
        structure: join(c, list),
    }
}

// Onward with what leads to the free places now; 23 where there was no place for the new node.
fn placed(r: Running, places: usize, got: Taken) -> Stepped
    requires { Timely r }
    ensures { Placed places r got result }
{
    let next = Memory {
        free: got.free,
        used: got.used,
        ..r.memory
    };
    if got.place >= places {
        return halt(with_memory(r, next), TABLE_FULL);
    }
    onward(r, next)
}

// Command 11: the parent is the cursor's node.
fn insert_first(
    e: Valued,
    content: u8,
    list: u8,
    words: &mut [u32],
    places: usize,
    pc: u8,
    r: Running,
) -> Stepped
    requires { Timely r × Within words.old places r.memory.cursor }
    ensures { InsertsOn child content list places pc words.old words.new e r result }
{
    let m = r.memory;
    let c = position(pc, m);
    let old = walk::beside(words, places, m.cursor, Side::First);
    if !may_add(words, places, m, m.cursor, old, c) {
        return halt(r, FLOW);
    }
    let Some(z) = e.value else {
        return halt(r, OVERFLOW);
    };
    let new = new_node(z, e.level, content, list, pc, m);
    let got = shape::add(
        words,
        places,
        m.used,
        m.free,
        m.cursor,
        Side::First,
        m.cursor,
        new,
    );
    placed(r, places, got)
}

// Command 12: the parent is that of the cursor's node; 22 where it has none.
fn insert_right(
    e: Valued,
    content: u8,
    list: u8,
    words: &mut [u32],
    places: usize,
    pc: u8,
    r: Running,
) -> Stepped
    requires { Timely r × Within words.old places r.memory.cursor }
    ensures { InsertsOn sibling content list places pc words.old words.new e r result }
{
    let m = r.memory;
    let above = walk::parent(words, places, m.cursor);
    if above >= places {
        return halt(r, ABSENT);
    }
    let c = position(pc, m);
    let old = walk::beside(words, places, m.cursor, Side::Right);
    if !may_add(words, places, m, above, old, c) {
        return halt(r, FLOW);
    }
    let Some(z) = e.value else {
        return halt(r, OVERFLOW);
    };
    let new = new_node(z, e.level, content, list, pc, m);
    let got = shape::add(
        words,
        places,
        m.used,
        m.free,
        m.cursor,
        Side::Right,
        above,
        new,
    );
    placed(r, places, got)
}

// Commands 11 and 12: a new node on a side, in front of what stands there, with the expression whose value and level are e; its content and its list join a set each.
// Each side has a function with a body of its own: two calls of one function with constants become one code, which works the side out again.
pub fn insert_on(
    e: Valued,
    content: u8,
    list: u8,
    side: Side,
    words: &mut [u32],
    places: usize,
    pc: u8,
    r: Running,
) -> Stepped
    requires { Timely r × Within words.old places r.memory.cursor }
    ensures { (l b : List ℕ) (v : List ℤ) (vars : ℕ) (x : Expression) → Evaluates words.old l v places vars r.memory x e
        → Acting (shifted (side_of side)) Same places vars (slices words.old l v b) (slices words.new l v b) r result
        (λ μ. Run.insert_at pc μ places (to (side_of side) μ.cursor) (up (to (side_of side) μ.cursor)) content list x) }
{
    match side {
        Side::First => insert_first(e, content, list, words, places, pc, r),
        Side::Right => insert_right(e, content, list, words, places, pc, r),
    }
}

// Commands 13 and 14: the first node on a side goes, with its subtree.
pub fn remove(
    side: Side,
    words: &mut [u32],
    places: usize,
    pc: u8,
    r: Running,
    marks: &mut [u16],
) -> Stepped
    requires { Timely r × (Within words.old places r.memory.cursor × (marks_size ≤ length marks.old)) }
    ensures { (l : List ℕ) (v : List ℤ) (b : List ℕ) (vars : ℕ) → Acting (closed_up (side_of side)) (Becomes marks.old marks.new) places vars
        (slices words.old l v b) (slices words.new l v b) r result (λ μ. Run.remove_at pc μ (to (side_of side) μ.cursor)) }
{
    let m = r.memory;
    let old = walk::beside(words, places, m.cursor, side);
    if old >= places {
        return halt(r, ABSENT);
    }
    if !may_touch(words, places, m, position(pc, m), old) {
        return halt(r, FLOW);
    }
    let remembered = marks::any(marks);
    let free = shape::remove(
        words, places, m.free, m.cursor, side, old, marks, remembered,
    );
    onward(r, Memory { free, ..m })
}

// Command 15: the value of the cursor's node becomes the expression, whose value and level are e.
pub fn write(e: Valued, words: &mut [u32], places: usize, pc: u8, r: Running) -> Stepped
    requires { Timely r × Within words.old places r.memory.cursor }
    ensures { (l b : List ℕ) (v : List ℤ) (vars : ℕ) (x : Expression) → Evaluates words.old l v places vars r.memory x e
        → Acts places vars (slices words.old l v b) (slices words.new l v b) r result (λ μ. Run.write pc μ x) }
{
    let m = r.memory;
    if !not_above(flow(e.level, pc, m), node::content(words, places, m.cursor)) {
        return halt(r, FLOW);
    }
    let Some(z) = e.value else {
        return halt(r, OVERFLOW);
    };
    node::set_value(words, places, m.cursor, numbers::bits(z));
    onward(r, m)
}
