// The node records of a job, loaded as a tree. A parent comes before its children, so that from the last record to the first each one is put in
// front of those children of its parent that are there already.
ghost use Rattle.std.specs.Prelude.{◌≡◌, ◌+◌, ◌*◌, ◌<◌, ◌≤◌, length};
ghost use Rattle.rules.specs.Limits.{max_nodes};
ghost use Rattle.rules.specs.Check.{parent};
ghost use Rattle.rules.specs.Job.{label_of};
ghost use Rattle.table.specs.Cells.{cell_size, label_new, cells, Within};
ghost use Rattle.table.specs.Promises.{Loadable, Loaded, Behind};
ghost use Rattle.table.specs.Steps.{Cleared, Entered};

use super::cells;
use super::cells::word_of;
use super::shape::NewNode;
use fields::reads::{full_at, half_at};
use rules::limits::NODE_SIZE;

// Leaves the first n places with no children.
fn clear(words: &mut [u32], n: usize)
    requires { (cell_size * n ≤ length words.old) × (n ≤ max_nodes) }
    ensures cleared { Cleared (cells words.new) n }
    ensures behind { Behind n (cells words.old) (cells words.new) }
{
    for x in 0..n {
        cells::clear(words, n, x);
    }
}

// Enters the record x, under the parent p if that comes before it.
fn place(words: &mut [u32], n: usize, x: usize, p: usize, node: NewNode)
    requires { Within words.old n x }
    ensures { Entered n p x (label_new node) (cells words.old) (cells words.new) }
{
    if p < x {
        let old = cells::get(words, n, p, super::FIRST);
        cells::fill(words, n, x, old, word_of(p), word_of(super::NIL), node);
        cells::store(words, n, p, super::FIRST, word_of(x));
        cells::lead_back(words, n, old, p, word_of(x));
        cells::count_up(words, n, p);
    } else {
        let none = word_of(super::NIL);
        cells::fill(words, n, x, none, none, none, node);
    }
}

// Enters the node record x of n, from `base` on in the job.
fn enter(job: &[u8], base: usize, n: usize, words: &mut [u32], x: usize)
    requires { Loadable job.now words.old base n × (x < n) }
    ensures { Entered n (parent job.now base x) x (label_of job.now base x)
        (cells words.old) (cells words.new) }
{
    let at = base + NODE_SIZE * x;
    let node = NewNode {
        value: full_at(job, at + 8),
        existence: job[at + 2],
        content: job[at + 3],
        structure: job[at + 4],
    };
    place(words, n, x, half_at(job, at), node);
}

// Loads n node records, from `base` on in the job: their tree stands in the first n places, the root at place 0, and no place is free but those
// never used.
pub fn load(job: &[u8], base: usize, n: usize, words: &mut [u32])
    requires { Loadable job.now words.old base n }
    ensures loaded { Loaded job.now base n (cells words.new) }
    ensures behind { Behind n (cells words.old) (cells words.new) }
{
    clear(words, n);
    for x in (1..n).rev() {
        enter(job, base, n, words, x);
    }
    enter(job, base, n, words, 0);
}
