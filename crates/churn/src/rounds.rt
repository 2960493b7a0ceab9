// One round, in a table of 512 places, with the operations that it takes:
//   build   seven children of the root with 72 children each, 1 + 7 * 73 = 512 nodes; each new node is gone to, and seven times up:
//           511 + 511 + 7
//   full    one more addition is refused; the root has seven children: 1 + 2
//   walk    every node in order shows its value, and is asked for a first child and for a right sibling, and the last of each list of siblings for
//           its parent; eight nodes have children, so that with the root's own there are nine lists: 1 + 3 * 512 + 9
//   prune   the first, third and fifth child of the root go, with 73 nodes each, and four are left: 2 roots, 3 removals, 2 moves, 1 look
//   refill  a chain of 219 nodes in front of the four; each is gone to; one more addition is refused: 219 + 219 + 1
//   walk    the root, the four and the chain but for its last node have children, so that there are 224 lists: 1 + 3 * 512 + 224
//   clear   the five children of the root go, and none is left: 1 root, 5 removals, 1 look
// That is 1029 + 3 + 1546 + 8 + 439 + 1761 + 7 = 4793 operations, 730 nodes added, 2 additions refused and 8 subtrees removed.
ghost use Rattle.std.specs.Prelude.{◌<◌};

use super::run::Run;
use table::Side;

// A child with 72 children, on a side of the cursor's node: their values are v, v + 1, .. in order. The cursor ends at the child.
fn branch(run: &mut Run, side: Side, v: u32)
    requires { v < 512 }
{
    run.add(side, v, true);
    run.go_side(side);
    run.add(Side::First, v + 1, true);
    run.go_side(Side::First);
    for k in 2..73 {
        run.add(Side::Right, v + k, true);
        run.go_side(Side::Right);
    }
    run.go_up();
}

// From a root alone to a full table.
fn build(run: &mut Run) {
    branch(run, Side::First, 1);
    for j in 1..7 {
        branch(run, Side::Right, 1 + 73 * j);
    }
}

// On to the next node in order; at the last one back to the root.
fn next(run: &mut Run) {
    if run.try_side(Side::First) {
        return;
    }
    for _ in 0..512 {
        if run.try_side(Side::Right) {
            return;
        }
        if !run.try_up() {
            return;
        }
    }
    run.must(false);
}

// The value of node i in order: of the tree as built, or as filled again.
fn expected(i: u32, again: bool) -> u32
    requires { i < 512 }
{
    if !again {
        return i;
    }
    if i == 0 {
        return 0;
    }
    if i < 220 {
        return 999 + i;
    }
    if i < 293 {
        return i - 146;
    }
    if i < 366 {
        return i - 73;
    }
    i
}

// Every node in order, from the root to the root.
fn walk(run: &mut Run, again: bool) {
    run.home();
    for i in 0..512 {
        run.value(expected(i, again));
        next(run);
    }
    let home = run.at == 0;
    run.must(home);
}

// The first, third and fifth child of the root go.
fn prune(run: &mut Run) {
    run.home();
    run.remove(Side::First);
    run.go_side(Side::First);
    run.remove(Side::Right);
    run.go_side(Side::Right);
    run.remove(Side::Right);
    run.home();
    run.children(4);
}

// A chain of 219 nodes in front of the cursor's children; the table is full then.
fn refill(run: &mut Run) {
    for k in 0..219 {
        run.add(Side::First, 1000 + k, true);
        run.go_side(Side::First);
    }
    run.add(Side::First, 0, false);
}

// The five children of the root go.
fn clear(run: &mut Run) {
    run.home();
    for _ in 0..5 {
        run.remove(Side::First);
    }
    run.children(0);
}

// One round, from a root alone to a root alone.
pub fn round(run: &mut Run) {
    build(run);
    run.add(Side::First, 0, false);
    run.home();
    run.children(7);
    walk(run, false);
    prune(run);
    refill(run);
    walk(run, true);
    clear(run);
}
