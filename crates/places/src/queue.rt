// Which places have an unended run, the one whose turn is next first. Places behind `count` are free, so each of the eight stands in `order` once: no buffer
// with a length, whose rest would mean nothing.
ghost use Rattle.std.specs.Prelude.{◌≡◌, ◌<◌};
ghost use Rattle.rules.specs.Limits.{max_runs};
ghost use Rattle.places.specs.Queue.{Whole, ordered, first_free, front, rotated, at_back, taken_off, moved_back, all_free, after_join, after_pass, after_leave};

use rules::limits::MAX_RUNS;

#[derive(Clone, Copy)]
pub struct Queue {
    pub order: [u8; MAX_RUNS],
    pub count: usize,
}

// Every place is free.
pub fn none() -> Queue
    ensures { Whole result × (result.count ≡ 0) × (result ≡ all_free) }
{
    Queue {
        order: [0, 1, 2, 3, 4, 5, 6, 7],
        count: 0,
    }
}

// The place of the run whose turn is next.
pub fn first(q: Queue) -> usize
    requires { Whole q }
    ensures { (result ≡ front q) × (result < max_runs) }
{
    usize::from(q.order[0])
}

// The first free place, which is the next newcomer's.
pub fn free(q: Queue) -> usize
    requires { Whole q × (q.count < max_runs) }
    ensures { (result ≡ first_free q) × (result < max_runs) }
{
    usize::from(q.order[q.count])
}

// It joins at the back.
pub fn join(q: Queue) -> Queue
    requires { Whole q × (q.count < max_runs) }
    ensures { Whole result × (ordered result ≡ at_back q) × (result ≡ after_join q) }
{
    Queue {
        count: q.count + 1,
        ..q
    }
}

// The order with the front behind the others.
fn turned(q: Queue) -> [u8; MAX_RUNS]
    requires { Whole q × (0 < q.count) }
    ensures { result ≡ rotated q.count q.order }
{
    let mut order = q.order;
    order[..q.count].rotate_left(1);
    order
}

// The front has had its turn and goes to the back.
pub fn pass(q: Queue) -> Queue
    requires { Whole q × (0 < q.count) }
    ensures { Whole result × (ordered result ≡ moved_back (ordered q)) × (result ≡ after_pass q) }
{
    Queue {
        order: turned(q),
        ..q
    }
}

// The front has ended: its place is the first free one.
pub fn leave(q: Queue) -> Queue
    requires { Whole q × (0 < q.count) }
    ensures { Whole result × (ordered result ≡ taken_off (ordered q)) × (first_free result ≡ front q) × (result.count < max_runs) × (result ≡ after_leave q) }
{
    Queue {
        order: turned(q),
        count: q.count - 1,
    }
}
