// The public run over node records of its own, which a caller reads and hands in as words.
#![tactic(auto)]

ghost use Rattle.std.specs.Prelude.{◌≡◌, true, false, ◌*◌, ◌≤◌, min, length};
ghost use Rattle.table.specs.Cells.{cell_size};
ghost use Rattle.monitor.specs.Promises.{lent};
ghost use Rattle.own.specs.Own.{own_places, copied_of, Owned};

use entry::copies::{load, store};
use entry::{follow_job, run_job};
use lent::node::blank;
use monitor::Outcome;

// One record more than a table may have places, so that check 10 can be seen to fail.
const OWN: usize = 513;

// The words that they are copied into.
pub const WORDS: usize = table::CELL * OWN;

// How many of its own records are made of words first: all for a follow-on script, none for a job. (One function runs both, by a flag, so that both promise
// the same but for it.)
fn copied(follows: bool) -> usize
    ensures { result ≡ copied_of follows }
{
    if follows { OWN } else { 0 }
}

// The run of a job, or of a follow-on script, with node records of its own, of which it lends as many as places are asked for, if it has so many. Then
// all are copied out into words, so that a caller can read the tree there and hand it in again. A follow-on script leaves the levels alone.
fn own(
    follows: bool,
    bytes: &[u8],
    budget: u64,
    places: usize,
    levels: &mut [u8],
    values: &mut [i32],
    lines: &mut [u8],
    words: &mut [u32],
) -> Outcome
    requires { cell_size * own_places ≤ length words.old }
    ensures { Owned follows bytes.now budget (min places own_places)
        (lent words.old levels.old values.old lines.old)
        (lent words.new levels.new values.new lines.new) result }
{
    let n = places.min(OWN);
    let record = blank();
    let mut own = [record; OWN];
    let first = copied(follows);
    store(&mut own, words, first);
    let outcome = if follows {
        follow_job(bytes, budget, &mut own[..n], levels, values, lines)
    } else {
        run_job(bytes, budget, &mut own[..n], levels, values, lines)
    };
    load(&own, words, OWN);
    outcome
}

// The run of a job with blank records.
pub fn run_own(
    job: &[u8],
    budget: u64,
    places: usize,
    levels: &mut [u8],
    values: &mut [i32],
    lines: &mut [u8],
    words: &mut [u32; WORDS],
) -> Outcome
    ensures { Owned false job.now budget (min places own_places)
        (lent words.old levels.old values.old lines.old)
        (lent words.new levels.new values.new lines.new) result }
{
    own(false, job, budget, places, levels, values, lines, words)
}

// A follow-on script over the records that the words spell.
pub fn follow_own(
    section: &[u8],
    budget: u64,
    places: usize,
    levels: &mut [u8],
    values: &mut [i32],
    lines: &mut [u8],
    words: &mut [u32; WORDS],
) -> Outcome
    ensures { Owned true section.now budget (min places own_places)
        (lent words.old levels.old values.old lines.old)
        (lent words.new levels.new values.new lines.new) result }
{
    own(true, section, budget, places, levels, values, lines, words)
}
