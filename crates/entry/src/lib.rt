// The public run over what a caller lends, node records among it.
#![tactic(auto)]

ghost use Rattle.std.specs.Prelude.{◌≡◌, length};
ghost use Rattle.monitor.specs.Follow.{Follows};
ghost use Rattle.monitor.specs.Promises.{lent, Promises};
ghost use Rattle.writer.specs.Writes.{WritesBack};
ghost use Rattle.entry.specs.Promises.{Tree, kept_of};
ghost use Rattle.entry.specs.Records.{StandsIn};

use copies::{load, store};
use lent::Node;
use monitor::{Outcome, follow_places, run_places};
use rules::limits::MAX_NODES;
use standing::held;
use table::WORDS;
use writer::write_places;

pub mod copies;
mod standing;

// How many of n records a run fills: none where the job was turned back. (Marks and words are arrays of the calls below, so each makes its own.)
fn kept(outcome: Outcome, n: usize) -> usize
    ensures { result ≡ kept_of outcome n }
{
    match outcome {
        Outcome::Refused { .. } => 0,
        Outcome::Finished { .. } | Outcome::Stopped { .. } => n,
    }
}

// The run over a job's bytes, with a budget and what the caller lends: a node table of a record to a place, the variables' levels and values, and an
// area for board lines of five bytes each.
pub fn run_job(
    job: &[u8],
    budget: u64,
    table: &mut [Node],
    levels: &mut [u8],
    values: &mut [i32],
    lines: &mut [u8],
) -> Outcome
    ensures { Promises length Tree job.now budget
        (lent table.old levels.old values.old lines.old)
        (lent table.new levels.new values.new lines.new) result }
{
    let n = table.len();
    let mut words = [0u32; WORDS];
    let outcome = run_places(job, budget, n, &mut words, levels, values, lines);
    let filled = kept(outcome, n);
    store(table, &words, filled);
    outcome
}

// The run over a bare section, with a budget and what the caller lends, which a tree and variables stand in: a node table of a record to a place, the
// variables' levels and values, and an area for board lines of five bytes each.
pub fn follow_job(
    section: &[u8],
    budget: u64,
    table: &mut [Node],
    levels: &[u8],
    values: &mut [i32],
    lines: &mut [u8],
) -> Outcome
    ensures { Follows length Tree StandsIn section.now budget
        (lent table.old levels.now values.old lines.old)
        (lent table.new levels.now values.new lines.new) result }
{
    let n = table.len();
    let mut marks = [0u8; MAX_NODES];
    let stands = held(table, &mut marks);
    let mut words = [0u32; WORDS];
    load(table, &mut words, n.min(MAX_NODES));
    let outcome = follow_places(
        section, budget, n, stands, &marks, &mut words, levels, values, lines,
    );
    let filled = kept(outcome, n);
    store(table, &words, filled);
    outcome
}

// The tree and the variables that a caller lends, written into an area as a job with an empty script: the job's length, or the number. The table has a
// record to a place.
pub fn write_job(
    table: &[Node],
    levels: &[u8],
    values: &[i32],
    area: &mut [u8],
) -> Result<usize, u8>
    ensures { WritesBack length StandsIn (lent table.now levels.now values.now area.old) area.new result }
{
    let n = table.len();
    let mut marks = [0u8; MAX_NODES];
    let stands = held(table, &mut marks);
    let mut words = [0u32; WORDS];
    load(table, &mut words, n.min(MAX_NODES));
    write_places(n, stands, &marks, &words, levels, values, area)
}
