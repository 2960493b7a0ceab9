// Eight places, each with room for one run, in slices of eight parts: newcomers and turns. What is in the parts of a place is written only where a
// newcomer takes the place, or its run has its turn.
ghost use Rattle.std.specs.Prelude.{◌≡◌, List, [], ℕ, ◌-◌, ◌*◌, ◌<◌, ◌≤◌, length};
ghost use Rattle.rules.specs.Limits.{max_bytes, max_variables};
ghost use Rattle.rules.specs.Limits.{max_runs};
ghost use Rattle.actions.specs.Marks.{marks_size};
ghost use Rattle.monitor.specs.Starting.{Room};
ghost use Rattle.places.specs.Pieces.{piece, Beside};
ghost use Rattle.places.specs.Queue.{Whole, first_free};
ghost use Rattle.turns.specs.Turn.{Freshens, TakesTurn};
ghost use Rattle.turns.specs.Pool.{table_size, area_size, parts, Parts, Long, Elsewhere, held_at, slices_at, Sized, Ready, Houses, Housed, Open, with_running, steps_of, refused, Joined, Passed, Left, comer, Arrives, TakesTurns};

use super::turn::{Turned, fresh, turn_of};
use actions::control::Running;
use actions::memory::Memory;
use actions::{guards, marks};
use fields::sections::Layout;
use interpreter::Frame;
use job::{Refusal, plan};
use monitor::{Outcome, admit, frame_of};
use places::parts::keep;
use places::queue;
use places::queue::Queue;
use rules::limits::{MAX_BYTES, MAX_RUNS, MAX_VARIABLES, NO_PLACE, TURN_STEPS};

// What is kept of a run beside its parts: the name that it came with, how many bytes its job has and how many lines it was lent, its budget, and where it
// stands.
#[derive(Clone, Copy)]
pub struct Place {
    pub name: u64,
    pub bytes: usize,
    pub capacity: usize,
    pub budget: usize,
    pub frame: Frame,
    pub running: Running,
}

#[derive(Clone, Copy)]
pub struct Pool {
    pub queue: Queue,
    pub places: [Place; MAX_RUNS],
}

// What is handed back, in four cases, of which none is an error; a turn took so many steps.
#[derive(Clone, Copy, Debug, PartialEq, Eq)]
pub enum Reply {
    Idle,
    Joins,
    Answers {
        name: u64,
        took: usize,
        outcome: Outcome,
    },
    GoesOn {
        name: u64,
        took: usize,
    },
}

#[derive(Drop)]
pub struct After {
    pub pool: Pool,
    pub reply: Reply,
}

// Five bytes for each of 65,535 lines.
pub const AREA: usize = 327675;

// No run yet.
fn blank() -> Place
    ensures { Sized result }
{
    let memory = Memory {
        cursor: 0,
        level: 0,
        lines: 0,
        free: 0,
        used: 0,
    };
    Place {
        name: 0,
        bytes: 0,
        capacity: 0,
        budget: 0,
        frame: Frame {
            script: 0,
            records: 0,
            vars: 0,
            places: 0,
        },
        running: Running {
            memory,
            guards: guards::none(),
            at: 0,
            left: 0,
        },
    }
}

pub fn empty() -> Pool
    ensures { (s : Parts) → Long s → length s.lines ≡ area_size * max_runs → Houses result s [] }
{
    let place = blank();
    Pool {
        queue: queue::none(),
        places: [place; MAX_RUNS],
    }
}

// A newcomer's variables and its tree, in the parts of a place.
fn fresh_at(
    i: usize,
    job: &[u8],
    l: Layout,
    budget: usize,
    words: &mut [u32],
    levels: &mut [u8],
    values: &mut [i32],
    marks: &mut [u16],
) -> Running
    requires { (i < max_runs) × (length words.old ≡ table_size * max_runs) × (length levels.old ≡ max_variables * max_runs)
        × (length values.old ≡ max_variables * max_runs) × (length marks.old ≡ marks_size * max_runs)
        × Room job.now l (piece table_size i table_size words.old) (piece max_variables i max_variables levels.old) (piece max_variables i max_variables values.old) }
    ensures { Freshens job.now l budget (piece table_size i table_size words.old) (piece table_size i table_size words.new)
        (piece max_variables i max_variables levels.old) (piece max_variables i max_variables levels.new)
        (piece max_variables i max_variables values.old) (piece max_variables i max_variables values.new)
        (piece marks_size i marks_size marks.new) result
        × Beside table_size i words.old words.new × Beside max_variables i levels.old levels.new
        × Beside max_variables i values.old values.new × Beside marks_size i marks.old marks.new }
{
    let w = table::WORDS * i;
    let v = MAX_VARIABLES * i;
    let m = marks::SIZE * i;
    fresh(
        job,
        l,
        budget,
        &mut words[w..w + table::WORDS],
        &mut levels[v..v + MAX_VARIABLES],
        &mut values[v..v + MAX_VARIABLES],
        &mut marks[m..m + marks::SIZE],
    )
}

// Nothing changes, and a newcomer is turned back.
fn refuse(p: Pool, name: u64, r: Refusal) -> After
    ensures { result ≡ refused p name r.number r.index }
{
    After {
        pool: p,
        reply: Reply::Answers {
            name,
            took: 0,
            outcome: Outcome::Refused {
                number: r.number,
                index: r.index,
            },
        },
    }
}

// Place i, which is the first free one, has a run that joins at the back.
fn joined(p: Pool, i: usize, place: Place) -> After
    requires { Whole p.queue × (p.queue.count < max_runs) × (length p.places ≡ max_runs) × (i < max_runs) }
    ensures { Joined p i place result }
{
    let mut pool = p;
    pool.queue = queue::join(p.queue);
    pool.places[i] = place;
    After {
        pool,
        reply: Reply::Joins,
    }
}

// A newcomer, with a budget, places for its tree and a number of lines. 15 comes before its job is read.
pub fn arrive(
    p: Pool,
    name: u64,
    job: &[u8],
    budget: u64,
    places: usize,
    capacity: usize,
    jobs: &mut [u8],
    plans: &mut [u32],
    levels: &mut [u8],
    words: &mut [u32],
    values: &mut [i32],
    marks: &mut [u16],
) -> After
    requires { Open p (parts jobs.old plans.old levels.old words.old values.old [] marks.old) × (capacity ≤ 65535) }
    ensures { (lines : List ℕ) → Arrives p
        (parts jobs.old plans.old levels.old words.old values.old lines marks.old)
        (parts jobs.new plans.new levels.new words.new values.new lines marks.new)
        (comer name job.now budget places capacity) result }
{
    let q = p.queue;
    if q.count == MAX_RUNS {
        let full = Refusal {
            number: NO_PLACE,
            index: 0,
        };
        return refuse(p, name, full);
    }
    let mut script = [0u32; plan::WORDS];
    let admitted = admit(job, budget, places, MAX_VARIABLES, &mut script);
    match admitted {
        Err(r) => refuse(p, name, r),
        Ok(l) => {
            let i = queue::free(q);
            keep(i, job, &script, jobs, plans);
            let running = fresh_at(i, job, l, budget as usize, words, levels, values, marks);
            joined(
                p,
                i,
                Place {
                    name,
                    bytes: job.len(),
                    capacity,
                    budget: budget as usize,
                    frame: frame_of(l, places),
                    running,
                },
            )
        }
    }
}

// The turn of the run at place i.
fn turn_at(
    i: usize,
    place: Place,
    jobs: &[u8],
    plans: &[u32],
    levels: &[u8],
    words: &mut [u32],
    values: &mut [i32],
    lines: &mut [u8],
    marks: &mut [u16],
) -> Turned
    requires { (i < max_runs) × Sized place × Long (parts jobs.now plans.now levels.now words.old values.old lines.old marks.old)
        × (length lines.old ≡ area_size * max_runs)
        × Ready (parts jobs.now plans.now levels.now words.old values.old lines.old marks.old) i place }
    ensures { TakesTurn (held_at (parts jobs.now plans.now levels.now words.old values.old lines.old marks.old) i place) place.budget
        (slices_at (parts jobs.now plans.now levels.now words.old values.old lines.old marks.old) i place)
        (slices_at (parts jobs.now plans.now levels.now words.new values.new lines.new marks.new) i place)
        (piece marks_size i marks_size marks.old) (piece marks_size i marks_size marks.new) place.running result
        × Elsewhere i (parts jobs.now plans.now levels.now words.old values.old lines.old marks.old)
        (parts jobs.now plans.now levels.now words.new values.new lines.new marks.new) }
{
    let j = MAX_BYTES * i;
    let p = plan::WORDS * i;
    let w = table::WORDS * i;
    let v = MAX_VARIABLES * i;
    let b = AREA * i;
    let m = marks::SIZE * i;
    turn_of(
        place.running,
        place.budget,
        &jobs[j..j + place.bytes],
        &plans[p..p + plan::WORDS],
        &levels[v..v + MAX_VARIABLES],
        place.frame,
        &mut words[w..w + table::WORDS],
        &mut values[v..v + MAX_VARIABLES],
        &mut lines[b..b + 5 * place.capacity],
        &mut marks[m..m + marks::SIZE],
    )
}

// The run in front, at place i, goes on: it goes to the back.
fn passed(p: Pool, i: usize, place: Place, running: Running) -> After
    requires { Whole p.queue × (0 < p.queue.count) × (length p.places ≡ max_runs) × (i < max_runs) }
    ensures { Passed p i (with_running place running) result }
{
    let mut pool = p;
    pool.queue = queue::pass(p.queue);
    pool.places[i] = Place { running, ..place };
    After {
        pool,
        reply: Reply::GoesOn {
            name: place.name,
            took: TURN_STEPS,
        },
    }
}

fn steps_of(o: Outcome) -> usize
    ensures { result ≡ steps_of o }
{
    match o {
        Outcome::Refused { .. } => 0,
        Outcome::Finished { steps, .. } | Outcome::Stopped { steps, .. } => steps as usize,
    }
}

// The steps that an outcome counts, without those before.
fn steps_since(o: Outcome, before: usize) -> usize
    ensures { result ≡ steps_of o - before }
{
    steps_of(o).saturating_sub(before)
}

// It has ended: its place is the first free one.
fn left(p: Pool, place: Place, outcome: Outcome) -> After
    requires { Whole p.queue × (0 < p.queue.count) × (place.running.left ≤ place.budget) }
    ensures { Left p place outcome result }
{
    After {
        pool: Pool {
            queue: queue::leave(p.queue),
            ..p
        },
        reply: Reply::Answers {
            name: place.name,
            took: steps_since(outcome, place.budget - place.running.left),
            outcome,
        },
    }
}

// The turn of the run in front, if there is one.
pub fn turn(
    p: Pool,
    jobs: &[u8],
    plans: &[u32],
    levels: &[u8],
    words: &mut [u32],
    values: &mut [i32],
    lines: &mut [u8],
    marks: &mut [u16],
) -> After
    requires { Housed p (parts jobs.now plans.now levels.now words.old values.old lines.old marks.old) }
    ensures { TakesTurns p
        (parts jobs.now plans.now levels.now words.old values.old lines.old marks.old)
        (parts jobs.now plans.now levels.now words.new values.new lines.new marks.new) result }
{
    let q = p.queue;
    if q.count == 0 {
        return After {
            pool: p,
            reply: Reply::Idle,
        };
    }
    let i = queue::first(q);
    let place = p.places[i];
    let turned = turn_at(i, place, jobs, plans, levels, words, values, lines, marks);
    match turned {
        Turned::GoesOn(running) => passed(p, i, place, running),
        Turned::Ends(outcome) => left(p, place, outcome),
    }
}

// Where the run stood that ended in the last turn: its place is the first free one.
pub fn ended(p: Pool) -> usize
    requires { Whole p.queue × (p.queue.count < max_runs) }
    ensures { (result ≡ first_free p.queue) × (result < max_runs) }
{
    queue::free(p.queue)
}
