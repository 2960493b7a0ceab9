// How many nodes stand in the subtree of each node, with the node itself. A parent comes before its children, so one pass from the last record on adds them up.
ghost use Rattle.std.specs.Prelude.{suc, ◌<◌, ◌≤◌};
ghost use Rattle.fields.specs.Siblings.{Linked};
ghost use Rattle.arranger.specs.Arranger.{Weighed};

use fields::nodes::parent_at;
use rules::limits::MAX_NODES;

// The subtree of node i is part of its parent's.
fn weigh(job: &[u8], base: usize, count: usize, weights: &mut [usize], i: usize)
    requires { Linked job.now base count × (1 ≤ i) × (i < count) × Weighed job.now base count (suc i) weights.old }
    ensures { Weighed job.now base count i weights.new }
{
    let p = parent_at(job, base, i);
    weights[p] += weights[i];
}

pub fn weights_of(job: &[u8], base: usize, count: usize) -> [usize; MAX_NODES]
    requires { Linked job.now base count × (1 ≤ count) }
    ensures { Weighed job.now base count 1 result }
{
    let mut weights = [1usize; MAX_NODES];
    for i in (1..count).rev() {
        weigh(job, base, count, &mut weights, i);
    }
    weights
}
