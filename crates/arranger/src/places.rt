// Where each node record comes to stand, in one pass from the first record on.
ghost use Rattle.std.specs.Prelude.{suc, ◌<◌, ◌≤◌};
ghost use Rattle.fields.specs.Siblings.{Linked};
ghost use Rattle.arranger.specs.Arranger.{Weighed, Placing, Placed};

use fields::nodes::parent_at;
use rules::limits::MAX_NODES;

// Node i comes to stand where the next child of its parent does. Behind it stand its own children, and behind its subtree the next child of its parent.
fn place(
    job: &[u8],
    base: usize,
    count: usize,
    weights: &[usize],
    own: &mut [usize],
    next: &mut [usize],
    i: usize,
)
    requires { Linked job.now base count × Weighed job.now base count 1 weights.now × (1 ≤ i) × (i < count) × Placing job.now base count i own.old next.old }
    ensures { Placing job.now base count (suc i) own.new next.new }
{
    let p = parent_at(job, base, i);
    let at = next[p];
    own[i] = at;
    next[i] = at + 1;
    next[p] = at + weights[i];
}

// The root stays, and its first child stands behind it.
pub fn places_of(job: &[u8], base: usize, count: usize, weights: &[usize]) -> [usize; MAX_NODES]
    requires { Linked job.now base count × (1 ≤ count) × Weighed job.now base count 1 weights.now }
    ensures { Placed job.now base count result }
{
    let mut own = [0usize; MAX_NODES];
    let mut next = [1usize; MAX_NODES];
    for i in 1..count {
        place(job, base, count, weights, &mut own, &mut next, i);
    }
    own
}
