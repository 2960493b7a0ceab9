// The calls that a portal in C makes: bytes, a budget and plain slices of numbers, and one number back.
#![tactic(auto)]

ghost use Rattle.std.specs.Prelude.{◌≡◌, ◌+◌, ◌*◌, ◌≤◌};
ghost use Rattle.rules.specs.Limits.{max_budget};
ghost use Rattle.monitor.specs.Promises.{answer_of, lent};
ghost use Rattle.portal.specs.Portal.{number_of, handed, portal};
ghost use Rattle.portal.specs.Standing.{Started, Followed};
ghost use Rattle.portal.specs.Written.{WrittenBack};

use monitor::{Outcome, follow_words, run_lines, run_words};
use writer::write_words;

// The ending in the upper half, the line count in the lower one: what C reads is one number.
fn packed(ending: u8, lines: usize) -> u64
    requires { lines ≤ max_budget }
    ensures { result ≡ ending * 4294967296 + lines }
{
    u64::from(ending) * 4294967296 + lines as u64
}

// An outcome as one number. A run has no more lines than steps, so the lower half holds their count.
fn number(o: Outcome) -> u64
    requires { (answer_of o).lines ≤ max_budget }
    ensures { result ≡ number_of (answer_of o) }
{
    match o {
        Outcome::Refused { number, .. } => packed(number, 0),
        Outcome::Finished { lines, .. } => packed(0, lines),
        Outcome::Stopped { number, lines, .. } => packed(number, lines),
    }
}

// The job is run with 512 places and room for 64 variables. The lines are put at the beginning of the area, five bytes each, the readers last.
#[unsafe(no_mangle)]
pub extern "C" fn portal_run(job: &[u8], budget: u64, lines: &mut [u8]) -> u64
    ensures { handed result lines.new ≡ portal job.now budget lines.old }
{
    number(run_lines(job, budget, lines))
}

// The job is run over what the portal keeps: a node table of ten words to a place, the variables' levels and values. Its tree and variables stay there.
#[unsafe(no_mangle)]
pub extern "C" fn portal_start(
    job: &[u8],
    budget: u64,
    table: &mut [u32],
    levels: &mut [u8],
    values: &mut [i32],
    lines: &mut [u8],
) -> u64
    ensures { Started job.now budget
        (lent table.old levels.old values.old lines.old)
        (lent table.new levels.new values.new lines.new) result }
{
    number(run_words(job, budget, table, levels, values, lines))
}

// A bare script section is run over what stands there. The table and the variables may hold anything: 11 turns away what no accepted job could hold.
#[unsafe(no_mangle)]
pub extern "C" fn portal_follow(
    script: &[u8],
    budget: u64,
    table: &mut [u32],
    levels: &[u8],
    values: &mut [i32],
    lines: &mut [u8],
) -> u64
    ensures { Followed script.now budget
        (lent table.old levels.now values.old lines.old)
        (lent table.new levels.now values.new lines.new) result }
{
    number(follow_words(script, budget, table, levels, values, lines))
}

// The tree and the variables are written into an area as a job with an empty script: the job's length, or the number. They may hold anything, as above.
#[unsafe(no_mangle)]
pub extern "C" fn portal_write(table: &[u32], levels: &[u8], values: &[i32], area: &mut [u8]) -> u64
    ensures { WrittenBack (lent table.now levels.now values.now area.old) area.new result }
{
    match write_words(table, levels, values, area) {
        Ok(length) => length as u64,
        Err(number) => u64::from(number),
    }
}
