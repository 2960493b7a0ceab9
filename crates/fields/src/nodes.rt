// The nodes, 12 bytes each from `base` on: the checks 5, 13, 6 and 12, and the fields.
ghost use Rattle.std.specs.Prelude.{◌≡◌, suc, ◌+◌, ◌<◌, ◌≤◌, length, get_or};
ghost use Rattle.rules.specs.Limits.{node_size};
ghost use Rattle.rules.specs.Bytes.{node_place};
ghost use Rattle.rules.specs.Check.{parent, parent_rule, order_rule, child_rule, node_clean, first_fault};
ghost use Rattle.fields.specs.Fields.{levels_of};
ghost use Rattle.fields.specs.Fits.{label_in, node_in};
ghost use Rattle.fields.specs.Siblings.{Linked, Rooted, Lasts, own_rule, behind, left, beside};

use crate::reads::{half_at, rest_at};
use crate::scan::first_that_fails;
use rules::levels::{PUBLIC, not_above};
use rules::limits::{MAX_NODES, NO_PARENT, NODE_SIZE};

pub fn parent_at(job: &[u8], base: usize, i: usize) -> usize
    requires { node_place base i + node_size ≤ length job.now }
    ensures { (result ≡ parent job.now base i) × (result < 65536) }
{
    half_at(job, base + NODE_SIZE * i)
}

// The three levels of a node; `structure` is that of its list of children.
#[derive(Clone, Copy, PartialEq, Eq, Debug)]
pub struct Levels {
    pub existence: u8,
    pub content: u8,
    pub structure: u8,
}

pub fn levels_at(job: &[u8], base: usize, i: usize) -> Levels
    requires { node_place base i + node_size ≤ length job.now }
    ensures { result ≡ levels_of job.now base i }
{
    let at = base + NODE_SIZE * i;
    Levels {
        existence: job[at + 2],
        content: job[at + 3],
        structure: job[at + 4],
    }
}

// Check 5, of node i.
pub fn parent_ok(job: &[u8], base: usize, i: usize) -> bool
    requires { node_place base i + node_size ≤ length job.now }
    ensures { result ≡ parent_rule job.now base i }
{
    let p = parent_at(job, base, i);
    if i == 0 { p == NO_PARENT } else { p < i }
}

// Check 13, of node i, which has passed check 5 as have all before it: on the way up from the record before it stands its parent. Each step up leaves a subtree for good, so the
// walks of all nodes together are no longer than there are nodes.
pub fn order_ok(job: &[u8], base: usize, i: usize) -> bool
    requires { Rooted job.now base i }
    ensures { result ≡ order_rule job.now base i }
{
    if i == 0 {
        return true;
    }
    let p = parent_at(job, base, i);
    let mut w = i - 1;
    while p < w {
        w = parent_at(job, base, w);
    }
    w == p
}

// Of check 6 what the levels of node i alone say, where `top` is the highest.
fn label_ok(job: &[u8], base: usize, i: usize, top: u8) -> bool
    requires { node_place base i + node_size ≤ length job.now }
    ensures { result ≡ label_in top job.now base i }
{
    let own = levels_at(job, base, i);
    (own.existence <= top)
        & (own.content <= top)
        & (own.structure <= top)
        & not_above(own.existence, own.content)
        & not_above(own.existence, own.structure)
}

// Where the search for a child of p starts: behind the last one that was passed, or behind p where none was, for which 0 stands, since the root is nobody's child: so it is
// the later of the two.
fn start(last: &[u16], p: usize) -> usize
    requires { p < length last.now }
    ensures { result ≡ behind (get_or last.now p 0) p }
{
    usize::from(last[p]).max(p) + 1
}

// The left sibling of node i: the nearest earlier record with the same parent, which comes after the parent. The records between it and node i are not searched, since
// the last child of each node is known: the search takes one turn whatever the order is.
fn left_of(job: &[u8], base: usize, last: &[u16], i: usize) -> Option<usize>
    requires { (i ≡ 0 → ⊥) × Rooted job.now base i × Lasts job.now base i last.now }
    ensures { result ≡ left job.now base i }
{
    let p = parent_at(job, base, i);
    let mut k = start(last, p);
    loop {
        k -= 1;
        if k == p {
            break None;
        }
        if parent_at(job, base, k) == p {
            break Some(k);
        }
    }
}

// The left sibling of node i, or its parent where it has none.
fn beside(job: &[u8], base: usize, last: &[u16], i: usize) -> usize
    requires { (i ≡ 0 → ⊥) × Rooted job.now base i × Lasts job.now base i last.now }
    ensures { result ≡ beside job.now base i }
{
    left_of(job, base, last, i).unwrap_or_else(|| parent_at(job, base, i))
}

// What check 6 asks of node i by its parent and its left sibling k. Where it has none, k is its parent, of which the same is asked anyway: so there is no branch.
pub fn child_ok(job: &[u8], base: usize, i: usize, k: usize) -> bool
    requires { (i ≡ 0 → ⊥) × Rooted job.now base i × (k ≡ beside job.now base i) }
    ensures { result ≡ child_rule job.now base i }
{
    let p = parent_at(job, base, i);
    let own = levels_at(job, base, i);
    let above = levels_at(job, base, p);
    not_above(above.existence, own.existence)
        & not_above(own.existence, above.structure)
        & not_above(levels_at(job, base, k).existence, own.existence)
}

// Check 12, of node i.
pub fn clean_ok(job: &[u8], base: usize, i: usize) -> bool
    requires { node_place base i + node_size ≤ length job.now }
    ensures { result ≡ node_clean job.now base i }
{
    rest_at(job, base + NODE_SIZE * i + 4) == 0
}

// What check 6 asks of node i alone, where `top` is the highest level.
pub fn own_ok(job: &[u8], base: usize, i: usize, top: u8) -> bool
    requires { node_place base i + node_size ≤ length job.now }
    ensures { result ≡ own_rule top job.now base i }
{
    if !label_ok(job, base, i, top) {
        return false;
    }
    if i == 0 {
        return not_above(levels_at(job, base, i).existence, PUBLIC);
    }
    true
}

// Check 6, of node i, which has passed check 5 as have all before it; `last` has the last child of each, `top` is the highest level.
fn node_ok(job: &[u8], base: usize, last: &[u16], i: usize, top: u8) -> bool
    requires { Rooted job.now base i × Lasts job.now base i last.now }
    ensures { result ≡ node_in top job.now base i }
{
    if !own_ok(job, base, i, top) {
        return false;
    }
    if i == 0 {
        return true;
    }
    child_ok(job, base, i, beside(job, base, last, i))
}

// Node i is passed: it is the last child of its parent so far.
fn pass(job: &[u8], base: usize, last: &mut [u16], i: usize)
    requires { Rooted job.now base i × Lasts job.now base i last.old }
    ensures { Lasts job.now base (suc i) last.new }
{
    if i != 0 {
        let p = parent_at(job, base, i);
        // i is below MAX_NODES
        last[p] = i as u16;
    }
}

// Check 6, where `top` is the highest level: the first of `count` nodes that fails, or the count. A search of its own, since its test keeps the last children.
pub fn first_fault(job: &[u8], base: usize, count: usize, top: u8) -> usize
    requires { Linked job.now base count }
    ensures { result ≡ first_fault (node_in top job.now base) count 0 }
{
    let mut last = [0u16; MAX_NODES];
    for i in 0..count {
        if !node_ok(job, base, &last, i, top) {
            return i;
        }
        pass(job, base, &mut last, i);
    }
    count
}

// Check 12: the first of `count` nodes that fails, or the count.
pub fn first_unclean(job: &[u8], base: usize, count: usize) -> usize
    requires { Linked job.now base count }
    ensures { result ≡ first_fault (node_clean job.now base) count 0 }
{
    first_that_fails(count, |i| clean_ok(job, base, i))
}
