// The checks 13, 6 and 12 of the nodes in one pass, as most jobs pass them: on the way up from the record before a node stands its parent, and right below that its left
// sibling. A job that does not pass is put to the checks one by one.
ghost use Rattle.std.specs.Prelude.{◌≡◌, true};
ghost use Rattle.fields.specs.Siblings.{Linked, Rooted};
ghost use Rattle.job.specs.Hanging.{Hangs, Ordered, Fit, AllFit};

use fields::nodes::{child_ok, clean_ok, own_ok, parent_at};

// The left sibling of node i, or its parent where it has none, if node i is in order, where the nodes before it are. Each step up leaves a subtree for good, so the walks of
// all nodes together are no longer than there are nodes.
fn left_of(job: &[u8], base: usize, i: usize) -> Option<usize>
    requires { (i ≡ 0 → ⊥) × Rooted job.now base i × Ordered job.now base i }
    ensures { Hangs job.now base i result }
{
    let p = parent_at(job, base, i);
    let mut k = i - 1;
    loop {
        if k == p {
            break Some(p);
        }
        let q = parent_at(job, base, k);
        if q == p {
            break Some(k);
        }
        if q < p {
            break None;
        }
        k = q;
    }
}

// Whether node i passes, where `top` is the highest level.
fn node_fits(job: &[u8], base: usize, i: usize, top: u8) -> bool
    requires { Rooted job.now base i × AllFit top job.now base i }
    ensures { result ≡ true → Fit top job.now base i }
{
    if !clean_ok(job, base, i) {
        return false;
    }
    if !own_ok(job, base, i, top) {
        return false;
    }
    if i == 0 {
        return true;
    }
    let Some(k) = left_of(job, base, i) else {
        return false;
    };
    child_ok(job, base, i, k)
}

// Whether all nodes pass; where it says no, nothing is known.
pub fn all_fit(job: &[u8], base: usize, count: usize, top: u8) -> bool
    requires { Linked job.now base count }
    ensures { result ≡ true → AllFit top job.now base count }
{
    for i in 0..count {
        if !node_fits(job, base, i, top) {
            return false;
        }
    }
    true
}
