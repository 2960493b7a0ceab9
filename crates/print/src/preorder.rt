// The tree in the words of a node table, ten to a place, node by node in preorder: the root, which stands at place 0, then each child with its
// subtree, from left to right.
ghost use Rattle.std.specs.Prelude.{◌≡◌, ℕ, suc, ◌+◌, ◌<◌, ◌≤◌, IfSome};
ghost use Rattle.rules.specs.Tree.{Forest, sibling, Place, to, size};
ghost use Rattle.table.specs.Cells.{Table, cells, Within};
ghost use Rattle.table.specs.Holds.{Holds};
ghost use Rattle.print.specs.Preorder as Preorder;
ghost use Rattle.print.specs.Preorder.{Stands, Goes, First, from};

use table::{Side, walk};

// A node that the walk stands at: its place, and how many steps it stands below the root.
#[derive(Clone, Copy)]
pub struct Visit {
    pub place: usize,
    pub depth: usize,
}

// The root.
pub fn first() -> Visit
    ensures place_value { (result.place ≡ 0) × (result.depth ≡ 0) }
    ensures stands { (m : Table) (n used free x : ℕ) (t : Forest) (p : Place) → Holds m n used free x t p
        → Stands m n used free t 0 result.place result.depth }
{
    Visit { place: 0, depth: 0 }
}

// The right sibling of the node at a place, or of the nearest node above it that has one.
fn after(words: &[u32], places: usize, at: usize, depth: usize) -> Option<Visit>
    requires { Within words.now places at }
    ensures place_lt_places { IfSome result (λ v. (v.place < places) × (v.depth ≤ depth)) }
    ensures by_index { (used free : ℕ) (t : Forest) (p : Place) → Holds (cells words.now) places used free at t p → depth ≡ Preorder.depth p
        → First (cells words.now) places used free t (from t (to sibling p)) result }
{
    let mut x = at;
    let mut d = depth;
    loop {
        let right = walk::beside(words, places, x, Side::Right);
        if right < places {
            return Some(Visit {
                place: right,
                depth: d,
            });
        }
        if d == 0 {
            return None;
        }
        x = walk::parent(words, places, x);
        if x >= places {
            return None;
        }
        d -= 1;
    }
}

// The node that comes after the one at a place, in a tree of a number of places, where there is one.
pub fn next(words: &[u32], places: usize, v: Visit) -> Option<Visit>
    requires { Within words.now places v.place × (v.depth < 512) }
    ensures place_lt_places { IfSome result (λ w. (w.place < places) × (w.depth ≤ v.depth + 1)) }
    ensures by_index { (used free k : ℕ) (t : Forest) → Stands (cells words.now) places used free t k v.place v.depth
        → Goes (cells words.now) places used free t (suc k) result }
{
    let at = v.place;
    let depth = v.depth;
    let down = walk::beside(words, places, at, Side::First);
    if down < places {
        return Some(Visit {
            place: down,
            depth: depth + 1,
        });
    }
    after(words, places, at, depth)
}

// How many nodes there are.
pub fn count(words: &[u32], places: usize) -> usize
    requires { Within words.now places 0 }
    ensures upper_bound { result ≤ places }
    ensures by_index { (used free x : ℕ) (t : Forest) (p : Place) → Holds (cells words.now) places used free x t p → result ≡ size t }
{
    let mut v = first();
    for n in 0..places {
        let Some(w) = next(words, places, v) else {
            return n + 1;
        };
        v = w;
    }
    places
}
