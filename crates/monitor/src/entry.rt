// The run over a job's bytes: the checks 1 to 10, then the job is loaded and run.
ghost use Rattle.std.specs.Prelude.{◌≡◌, length};
ghost use Rattle.table.specs.Cells.{cells};
ghost use Rattle.table.specs.Promises.{Behind};
ghost use Rattle.rules.specs.Outcome.{budget_rule};
ghost use Rattle.actions.specs.Shows.{slices};
ghost use Rattle.monitor.specs.Promises.{lent, places_in, places_for, Tree, Promises, PromisesLines};
ghost use Rattle.monitor.specs.Starting.{buffer_test, frame_of, Loading, VariablesLoaded, Room, JobLoaded, AdmitsJob, Begun, Left};

use super::start::from_root;
use fields::sections::Layout;
use interpreter::Frame;
use job::plan::WORDS;
use job::{Refusal, prepare};
use rules::limits::{BAD_BUDGET, BAD_BUFFERS, MAX_BUDGET, MAX_NODES, MAX_VARIABLES};
use table::records;

// What becomes of a job: turned back with a number and an index; or run, to its end or to a stop with its number and record. A stop is no error, so
// that this is no result of two cases.
#[derive(Clone, Copy, Debug, PartialEq, Eq)]
pub enum Outcome {
    Refused {
        number: u8,
        index: usize,
    },
    Finished {
        steps: u32,
        lines: usize,
    },
    Stopped {
        number: u8,
        index: usize,
        steps: u32,
        lines: usize,
    },
}

// The variables of a job, their levels and values side by side.
fn load_variables(job: &[u8], vars: usize, levels: &mut [u8], values: &mut [i32])
    requires { Loading job.now levels.old values.old vars }
    ensures { VariablesLoaded job.now vars levels.old levels.new values.old values.new }
{
    for i in 0..vars {
        levels[i] = fields::variables::level_at(job, i);
        values[i] = fields::variables::value_at(job, i);
    }
}

// The variables and the tree of an accepted job, into slices that have room for them.
pub fn load(job: &[u8], l: Layout, words: &mut [u32], levels: &mut [u8], values: &mut [i32])
    requires { Room job.now l words.old levels.old values.old }
    ensures { JobLoaded job.now words.old words.new levels.old levels.new
        values.old values.new }
{
    load_variables(job, l.variables, levels, values);
    records::load(job, l.tree, l.nodes, words);
}

// What a run of a job reads of its layout, with a table of some places.
pub fn frame_of(l: Layout, places: usize) -> Frame
    ensures { result ≡ frame_of l places }
{
    Frame {
        script: l.script,
        records: l.records,
        vars: l.variables,
        places,
    }
}

// Check 9.
pub fn budget_ok(budget: u64) -> bool
    ensures { result ≡ budget_rule budget }
{
    (1 <= budget) & (budget <= MAX_BUDGET)
}

// Check 10, of a job with some nodes and variables and buffers with some places for each.
fn buffers_ok(nodes: usize, variables: usize, places: usize, room: usize) -> bool
    ensures { result ≡ buffer_test nodes variables places room }
{
    (1 <= places) & (places <= MAX_NODES) & (nodes <= places) & (variables <= room)
}

// As many places as are asked for, if there are words for them; else 0, a number of places like any other, which check 10 turns back.
fn asked(places: usize, words: usize) -> usize
    ensures { result ≡ places_for places words }
{
    if table::CELL * places.min(MAX_NODES) <= words {
        places
    } else {
        0
    }
}

// The checks 1 to 10, with so many places and room for so many variables; and the script's plan. Check 10 of a follow-on script asks for less, so it has
// an `admit` of its own.
pub fn admit(
    job: &[u8],
    budget: u64,
    places: usize,
    room: usize,
    plan: &mut [u32; WORDS],
) -> Result<Layout, Refusal>
    ensures { AdmitsJob job.now budget places room plan.old plan.new result }
{
    let l = prepare(job, plan)?;
    if !budget_ok(budget) {
        return Err(Refusal {
            number: BAD_BUDGET,
            index: 0,
        });
    }
    if !buffers_ok(l.nodes, l.variables, places, room) {
        return Err(Refusal {
            number: BAD_BUFFERS,
            index: 0,
        });
    }
    Ok(l)
}

// An accepted job, with buffers that are large enough: loaded, and run from the root. The slices come one by one, as a caller in C lends them.
fn run_accepted(
    job: &[u8],
    l: Layout,
    plan: &[u32; WORDS],
    budget: usize,
    words: &mut [u32],
    places: usize,
    levels: &mut [u8],
    values: &mut [i32],
    lines: &mut [u8],
) -> Outcome
    requires { Begun job.now l plan.now budget (slices words.old levels.old values.old lines.old) places }
    ensures { Left job.now budget places (slices words.old levels.old values.old lines.old)
        (slices words.new levels.new values.new lines.new) result }
{
    load(job, l, words, levels, values);
    from_root(
        job,
        plan,
        frame_of(l, places),
        budget,
        l.nodes,
        table::NIL,
        words,
        levels,
        values,
        lines,
    )
}

// The run over a job's bytes, with a budget and what the caller lends: a node table of some places, ten words to each, the variables' levels and
// values, and an area for board lines of five bytes each. Words that are too few hold no place, which is check 10; so is more than 512 places, for
// which no more words are needed than for 512.
pub fn run_places(
    job: &[u8],
    budget: u64,
    places: usize,
    words: &mut [u32],
    levels: &mut [u8],
    values: &mut [i32],
    lines: &mut [u8],
) -> Outcome
    ensures { Promises (λ w. places_for places (length w)) Tree job.now budget
        (lent words.old levels.old values.old lines.old)
        (lent words.new levels.new values.new lines.new) result
        × Behind (places_for places (length words.old)) (cells words.old) (cells words.new) }
{
    let room = levels.len().min(values.len());
    let held = asked(places, words.len());
    let mut plan = [0u32; WORDS];
    match admit(job, budget, held, room, &mut plan) {
        Err(Refusal { number, index }) => Outcome::Refused { number, index },
        Ok(l) => run_accepted(
            job,
            l,
            &plan,
            budget as usize,
            words,
            held,
            levels,
            values,
            lines,
        ),
    }
}

// The same with a table of words alone: it has as many places as there are tens of words.
pub fn run_words(
    job: &[u8],
    budget: u64,
    words: &mut [u32],
    levels: &mut [u8],
    values: &mut [i32],
    lines: &mut [u8],
) -> Outcome
    ensures { Promises places_in Tree job.now budget
        (lent words.old levels.old values.old lines.old)
        (lent words.new levels.new values.new lines.new) result
        × Behind (places_in words.old) (cells words.old) (cells words.new) }
{
    let places = words.len() / table::CELL;
    run_places(job, budget, places, words, levels, values, lines)
}

// The same with the largest table and room for every variable, of its own. They are made after the checks: a job that is turned back does not pay for
// clearing them.
pub fn run_lines(job: &[u8], budget: u64, lines: &mut [u8]) -> Outcome
    ensures { PromisesLines job.now budget lines.old lines.new result }
{
    let mut plan = [0u32; WORDS];
    match admit(job, budget, MAX_NODES, MAX_VARIABLES, &mut plan) {
        Err(Refusal { number, index }) => Outcome::Refused { number, index },
        Ok(l) => {
            let mut words = [0u32; table::WORDS];
            let mut levels = [0u8; MAX_VARIABLES];
            let mut values = [0i32; MAX_VARIABLES];
            run_accepted(
                job,
                l,
                &plan,
                budget as usize,
                &mut words,
                MAX_NODES,
                &mut levels,
                &mut values,
                lines,
            )
        }
    }
}
