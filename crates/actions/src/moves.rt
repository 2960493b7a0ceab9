// The cursor: commands 7 to 10, 16, 18 and 19.
ghost use Rattle.std.specs.Prelude.{◌≡◌, List, ℕ, ◌≤◌, ◌<◌, ℤ};
ghost use Rattle.std.proofs.Math.Option.{Option};
ghost use Rattle.rules.specs.Tree.{Forest, Place, left_of};
ghost use Rattle.rules.specs.Level as Level;
ghost use Rattle.rules.specs.Run.{move_to, go_to, go_to_last};
ghost use Rattle.table.specs.Cells.{Within};
ghost use Rattle.actions.specs.Shows.{slices};
ghost use Rattle.actions.specs.Stands.{Timely};
ghost use Rattle.actions.specs.Acts.{moved_to, Acts, Target, move_of};

use super::control::{Running, Stepped, halt, onward};
use super::memory::{Memory, level_of};
use rules::levels::{join, not_above};
use rules::limits::{ABSENT, FLOW};
use table::{Side, node, walk};

// The cursor at another place or level, where the context is not above its level.
fn move_to(pc: u8, r: Running, place: usize, level: u8) -> Stepped
    requires { Timely r }
    ensures { (result ≡ moved_to pc r place level) × (level < 256) }
{
    let m = r.memory;
    if !not_above(pc, level_of(m)) {
        return halt(r, FLOW);
    }
    let level = u64::from(level);
    onward(
        r,
        Memory {
            cursor: place,
            level,
            ..m
        },
    )
}

// Command 16, cover: a set is joined to the cursor level.
pub fn raise(set: u8, places: usize, pc: u8, r: Running) -> Stepped
    requires { Timely r × (r.memory.cursor < places) }
    ensures { (w l : List ℕ) (v : List ℤ) (b : List ℕ) (vars : ℕ)
        → Acts places vars (slices w l v b) (slices w l v b) r result (λ μ. move_to pc μ μ.cursor (Level.join μ.level set)) }
{
    let m = r.memory;
    move_to(pc, r, m.cursor, join(level_of(m), set))
}

// To where a move leads, if that is a place. A walk gives no place where there is no node: the test against `places` bounds the reads that follow, too.
fn go_to(words: &[u32], places: usize, pc: u8, r: Running, place: usize) -> Stepped
    requires { Timely r × Within words.now places r.memory.cursor }
    ensures { (l : List ℕ) (v : List ℤ) (b : List ℕ) (vars : ℕ) (o : Forest → Place → Option Place) → Target words.now places r.memory place o
        → Acts places vars (slices words.now l v b) (slices words.now l v b) r result (λ μ. go_to pc μ (o μ.tree μ.cursor)) }
{
    if place >= places {
        return halt(r, ABSENT);
    }
    let m = r.memory;
    move_to(
        pc,
        r,
        place,
        join(level_of(m), node::existence(words, places, place)),
    )
}

// Commands 7 to 10: root, up, first child, right sibling. The root is the rest, since a walk seldom goes there.
pub fn go(command: u8, words: &[u32], places: usize, pc: u8, r: Running) -> Stepped
    requires { Timely r × (Within words.now places r.memory.cursor × ((7 ≤ command) × (command ≤ 10))) }
    ensures { (l : List ℕ) (v : List ℤ) (b : List ℕ) (vars : ℕ)
        → Acts places vars (slices words.now l v b) (slices words.now l v b) r result (λ μ. move_of command pc μ) }
{
    let at = r.memory.cursor;
    match command {
        8 => go_to(words, places, pc, r, walk::parent(words, places, at)),
        9 => go_to(
            words,
            places,
            pc,
            r,
            walk::beside(words, places, at, Side::First),
        ),
        10 => go_to(
            words,
            places,
            pc,
            r,
            walk::beside(words, places, at, Side::Right),
        ),
        _ => move_to(pc, r, walk::root(), pc),
    }
}

// Command 18: to the left sibling.
pub fn go_left(words: &[u32], places: usize, pc: u8, r: Running) -> Stepped
    requires { Timely r × Within words.now places r.memory.cursor }
    ensures { (l : List ℕ) (v : List ℤ) (b : List ℕ) (vars : ℕ)
        → Acts places vars (slices words.now l v b) (slices words.now l v b) r result (λ μ. go_to pc μ (left_of μ.cursor)) }
{
    let place = walk::left(words, places, r.memory.cursor);
    go_to(words, places, pc, r, place)
}

// Command 19: to the last child, with the level of the list that it ends.
pub fn go_last(words: &[u32], places: usize, pc: u8, r: Running) -> Stepped
    requires { Timely r × Within words.now places r.memory.cursor }
    ensures { (l : List ℕ) (v : List ℤ) (b : List ℕ) (vars : ℕ)
        → Acts places vars (slices words.now l v b) (slices words.now l v b) r result (λ μ. go_to_last pc μ) }
{
    let m = r.memory;
    let place = walk::last(words, places, m.cursor);
    if place >= places {
        return halt(r, ABSENT);
    }
    move_to(
        pc,
        r,
        place,
        join(level_of(m), node::structure(words, places, m.cursor)),
    )
}
