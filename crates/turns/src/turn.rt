// One run that takes turns, over its own buffers: before its first turn, and one turn of it.
ghost use Rattle.std.specs.Prelude.{◌≡◌, ◌≤◌, length};
ghost use Rattle.rules.specs.Limits.{max_budget};
ghost use Rattle.actions.specs.Marks.{marks_size};
ghost use Rattle.actions.specs.Shows.{slices};
ghost use Rattle.interpreter.specs.Steps.{held, Startable};
ghost use Rattle.monitor.specs.Starting.{Room};
ghost use Rattle.turns.specs.Turn.{with_left, Freshens, TakesTurn};

use actions::control::Running;
use actions::marks;
use fields::sections::Layout;
use interpreter::{Frame, run_from};
use monitor::{Outcome, ended, load, rooted};
use rules::limits::{SPENT, TURN_STEPS};

// A run goes on, from where it stands then, or has ended; neither is an error, so that the two are no result.
#[derive(Clone, Copy)]
pub enum Turned {
    GoesOn(Running),
    Ends(Outcome),
}

// An accepted job is loaded, and its run stands at the root.
pub fn fresh(
    job: &[u8],
    l: Layout,
    budget: usize,
    words: &mut [u32],
    levels: &mut [u8],
    values: &mut [i32],
    marks: &mut [u16],
) -> Running
    requires { Room job.now l words.old levels.old values.old × (marks_size ≤ length marks.old) }
    ensures { Freshens job.now l budget words.old words.new levels.old levels.new
        values.old values.new marks.new result }
{
    load(job, l, words, levels, values);
    marks::clear(marks);
    rooted(l.nodes, table::NIL, budget)
}

// The same run with another number of steps left.
fn with_left(r: Running, left: usize) -> Running
    ensures { result ≡ with_left r left }
{
    Running { left, ..r }
}

// At most 5,000 steps, of those that are left of a budget. Only where these are used up, and not the budget, the run goes on.
pub fn turn_of(
    r: Running,
    budget: usize,
    job: &[u8],
    plan: &[u32],
    levels: &[u8],
    f: Frame,
    words: &mut [u32],
    values: &mut [i32],
    lines: &mut [u8],
    marks: &mut [u16],
) -> Turned
    requires { Startable (held job.now plan.now f) (slices words.old levels.now values.old lines.old) marks.old r
        × (r.left ≤ budget) × (budget ≤ max_budget) }
    ensures { TakesTurn (held job.now plan.now f) budget
        (slices words.old levels.now values.old lines.old)
        (slices words.new levels.now values.new lines.new) marks.old marks.new r result }
{
    let left = r.left;
    let steps = TURN_STEPS.min(left);
    let a = run_from(
        with_left(r, steps),
        job,
        plan,
        levels,
        f,
        words,
        values,
        lines,
        marks,
    );
    if (a.stop == SPENT) & (TURN_STEPS < left) {
        return Turned::GoesOn(with_left(a.running, left - TURN_STEPS));
    }
    // the budget without what is left of it after this turn's steps
    Turned::Ends(ended(a, budget - (left - steps)))
}
