// The nodes' records, each node followed at once by its whole subtree. The walk goes down to the first child, else right, else up; it is given a table in
// which a tree stands, and ends with the last node.
ghost use Rattle.std.specs.Prelude.{◌≡◌, ◌+◌, ◌<◌, ◌≤◌, length};
ghost use Rattle.rules.specs.Limits.{max_nodes};
ghost use Rattle.table.specs.Cells.{cells};
ghost use Rattle.writer.specs.Nodes as Nodes;
ghost use Rattle.writer.specs.Nodes.{parent_in, Ready, Turned, Listable, NodesPut};

use super::put::put_node;
use lent::Node;
use lent::node::node_of;
use rules::limits::{MAX_NODES, NO_PARENT, NODE_SIZE};
use table::NIL;

// Where the walk is: at a link under the node at `up`, with `deep` nodes above it. So many nodes were written. Links are numbers as in the table, NIL among
// them. The walk that asks a table for its tree (crate lent) keeps other things on its way, so the two share no more than this form.
#[derive(Clone, Copy)]
pub struct Spot {
    pub link: usize,
    pub up: usize,
    pub deep: usize,
    pub next: usize,
}

// The link to the root.
fn start() -> Spot
    ensures { result ≡ Nodes.start }
{
    Spot {
        link: 0,
        up: NIL,
        deep: 0,
        next: 0,
    }
}

// The index of the node above, where `deep` nodes stand above; by depth, `indexes` has those of all of them. Where none stands above it is what a record has for
// that.
fn parent_of(indexes: &[usize; MAX_NODES], deep: usize) -> usize
    requires { deep ≤ max_nodes }
    ensures { result ≡ parent_in indexes.now deep }
{
    if deep == 0 {
        return NO_PARENT;
    }
    indexes[deep - 1]
}

// Down to the children of the node that the link leads to, whose record is d and which was written.
fn enter(s: Spot, d: Node) -> Spot
    requires { (s.deep < max_nodes) × (s.next < max_nodes) }
    ensures { result ≡ Nodes.enter s d }
{
    Spot {
        link: d.first as usize,
        up: s.link,
        deep: s.deep + 1,
        next: s.next + 1,
    }
}

// Up from the end of a list, and on right of the node above, whose record is d.
fn leave(s: Spot, d: Node) -> Spot
    requires { 0 < s.deep }
    ensures { result ≡ Nodes.leave s d }
{
    Spot {
        link: d.right as usize,
        up: d.parent as usize,
        deep: s.deep - 1,
        next: s.next,
    }
}

// One turn.
fn turn(
    words: &[u32],
    places: usize,
    base: usize,
    s: Spot,
    indexes: &mut [usize; MAX_NODES],
    area: &mut [u8],
) -> Spot
    requires { Ready words.now places base s area.old }
    ensures { Turned (cells words.now) places base s indexes.old area.old indexes.new area.new result }
{
    let y = s.link;
    if y >= places {
        return leave(s, node_of(words, s.up));
    }
    let d = node_of(words, y);
    let parent = parent_of(indexes, s.deep);
    put_node(area, base + NODE_SIZE * s.next, parent, d);
    let at = s.deep;
    indexes[at] = s.next;
    enter(s, d)
}

// The records of so many nodes, from a place of the area on.
pub fn put_nodes(words: &[u32], places: usize, nodes: usize, base: usize, area: &mut [u8])
    requires { Listable words.now places nodes base (length area.old) }
    ensures { NodesPut (cells words.now) places base area.old area.new }
{
    let mut indexes = [0usize; MAX_NODES];
    let mut s = start();
    while s.next < nodes {
        s = turn(words, places, base, s, &mut indexes, area);
    }
}
