// A run from the root, over a table and variables that stand already.
ghost use Rattle.std.specs.Prelude.{◌≡◌, ◌≤◌};
ghost use Rattle.rules.specs.Limits.{max_budget};
ghost use Rattle.actions.specs.Shows.{slices};
ghost use Rattle.interpreter.specs.Steps.{held};
ghost use Rattle.monitor.specs.Starting.{outcome_of};
ghost use Rattle.monitor.specs.FromRoot.{AtRoot, Rooted, FromRoot};

use super::entry::Outcome;
use actions::control::{FINISHED, Running, Stepped};
use actions::memory::Memory;
use actions::{guards, marks};
use interpreter::{Frame, run_from};
use job::plan::WORDS;

// How a run with a budget has ended, as an outcome. The steps fit 32 bits, as the budget does: `as`, since usize has no `From` here.
pub fn ended(a: Stepped, budget: usize) -> Outcome
    requires { (a.running.left ≤ budget) × (budget ≤ max_budget) }
    ensures { result ≡ outcome_of budget a }
{
    let steps = (budget - a.running.left) as u32;
    if a.stop == FINISHED {
        return Outcome::Finished {
            steps,
            lines: a.running.memory.lines,
        };
    }
    Outcome::Stopped {
        number: a.stop,
        index: a.running.at,
        steps,
        lines: a.running.memory.lines,
    }
}

// Where a run with a budget starts. `used` places of the table were used so far, and `free` leads to the free ones among them.
pub fn rooted(used: usize, free: usize, budget: usize) -> Running
    ensures { AtRoot used free budget result }
{
    let memory = Memory {
        cursor: 0,
        level: 0,
        lines: 0,
        free,
        used,
    };
    Running {
        memory,
        guards: guards::none(),
        at: 0,
        left: budget,
    }
}

// The run from there to its end.
pub fn from_root(
    bytes: &[u8],
    plan: &[u32; WORDS],
    f: Frame,
    budget: usize,
    used: usize,
    free: usize,
    words: &mut [u32],
    levels: &[u8],
    values: &mut [i32],
    lines: &mut [u8],
) -> Outcome
    requires { Rooted (held bytes.now plan.now f) (slices words.old levels.now values.old lines.old) budget }
    ensures { FromRoot (held bytes.now plan.now f) used free budget
        (slices words.old levels.now values.old lines.old)
        (slices words.new levels.now values.new lines.new) result }
{
    let mut remembered = [0u16; marks::SIZE];
    ended(
        run_from(
            rooted(used, free, budget),
            bytes,
            plan,
            levels,
            f,
            words,
            values,
            lines,
            &mut remembered,
        ),
        budget,
    )
}
