// A run: step after step, until it ends. The running record is lent to each step, which updates it.
ghost use Rattle.std.specs.Prelude.{◌≡◌};
ghost use Rattle.actions.specs.Shows.{slices};
ghost use Rattle.actions.specs.Stands.{stepped};
ghost use Rattle.interpreter.specs.Steps.{held, over_at, Startable, Turns, Runs};

use super::step::{Frame, carry_out};
use actions::control::{FINISHED, Running, Stepped, halt};
use rules::limits::SPENT;

// How a run ends that has made all its steps: at the script's end it has finished.
fn over(at: usize, records: usize) -> u8
    ensures { result ≡ over_at at records }
{
    if at < records { SPENT } else { FINISHED }
}

// What comes next in a run: the script's end, the budget's, a stop, or one step more.
fn turn(
    r: Running,
    job: &[u8],
    plan: &[u32],
    levels: &[u8],
    f: Frame,
    words: &mut [u32],
    values: &mut [i32],
    lines: &mut [u8],
    marks: &mut [u16],
) -> Stepped
    requires { Startable (held job.now plan.now f) (slices words.old levels.now values.old lines.old) marks.old r }
    ensures { Turns (held job.now plan.now f)
        (slices words.old levels.now values.old lines.old)
        (slices words.new levels.now values.new lines.new) marks.old marks.new r result }
{
    if r.left == 0 {
        return halt(r, over(r.at, f.records));
    }
    carry_out(job, plan, levels, f, words, values, lines, marks, r)
}

// One step of a run, on the running record that it is lent.
fn step(
    r: &mut Running,
    job: &[u8],
    plan: &[u32],
    levels: &[u8],
    f: Frame,
    words: &mut [u32],
    values: &mut [i32],
    lines: &mut [u8],
    marks: &mut [u16],
) -> u8
    requires { Startable (held job.now plan.now f) (slices words.old levels.now values.old lines.old) marks.old r.old }
    ensures { Turns (held job.now plan.now f)
        (slices words.old levels.now values.old lines.old)
        (slices words.new levels.now values.new lines.new) marks.old marks.new r.old
        (stepped result r.new) }
{
    let a = turn(*r, job, plan, levels, f, words, values, lines, marks);
    *r = a.running;
    a.stop
}

// A run lends the running record to each step, until one says how it has ended.
fn run(
    r: &mut Running,
    job: &[u8],
    plan: &[u32],
    levels: &[u8],
    f: Frame,
    words: &mut [u32],
    values: &mut [i32],
    lines: &mut [u8],
    marks: &mut [u16],
) -> u8
    requires { Startable (held job.now plan.now f) (slices words.old levels.now values.old lines.old) marks.old r.old }
    ensures { Runs (held job.now plan.now f)
        (slices words.old levels.now values.old lines.old)
        (slices words.new levels.now values.new lines.new) marks.old marks.new r.old
        (stepped result r.new) }
{
    let mut ending = 0;
    while ending == 0 {
        ending = step(r, job, plan, levels, f, words, values, lines, marks);
    }
    ending
}

// A run from where a running record stands.
pub fn run_from(
    start: Running,
    job: &[u8],
    plan: &[u32],
    levels: &[u8],
    f: Frame,
    words: &mut [u32],
    values: &mut [i32],
    lines: &mut [u8],
    marks: &mut [u16],
) -> Stepped
    requires { Startable (held job.now plan.now f) (slices words.old levels.now values.old lines.old) marks.old start }
    ensures { Runs (held job.now plan.now f)
        (slices words.old levels.now values.old lines.old)
        (slices words.new levels.now values.new lines.new) marks.old marks.new start result }
{
    let mut r = start;
    let stop = run(&mut r, job, plan, levels, f, words, values, lines, marks);
    halt(r, stop)
}
