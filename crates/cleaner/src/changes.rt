// The report of the cleaner, one change at a time.
ghost use Rattle.std.specs.Prelude.{◌≡◌, suc, ◌<◌, ◌≤◌, length, MatchOption};
ghost use Rattle.rules.specs.Clean.{change_at};
ghost use Rattle.cleaner.specs.Cleaner.{Laid, next_place, found, next_of};

use crate::spots::{Spot, is_dirty, spot_of};
use fields::sections::{Layout, layout_of, length_ok, offsets_ok};

// A change: the byte, the number that stands there, and the place behind it, from which the next change is asked for.
#[derive(Clone, Copy, Debug, PartialEq, Eq)]
pub struct Change {
    pub spot: Spot,
    pub old: u8,
    pub after: usize,
}

fn change_at(job: &[u8], l: Layout, at: usize) -> Change
    requires { Laid job.now l × (at < length job.now) }
    ensures { result ≡ found (change_at job.now at) (suc at) }
{
    Change {
        spot: spot_of(job, l, at),
        old: job[at],
        after: at + 1,
    }
}

// The first place from one on whose byte is to be changed.
fn next_dirty(job: &[u8], l: Layout, from: usize) -> Option<usize>
    requires { Laid job.now l }
    ensures { MatchOption result (length job.now ≤ next_place job.now from) (λ at. (at ≡ next_place job.now from) × (at < length job.now)) }
{
    for at in from..job.len() {
        if is_dirty(job, l, at) {
            return Some(at);
        }
    }
    None
}

// The first change from a place on, of a job whose sections lie within its bytes: from 0 on, and then from behind each change, they are the report.
pub fn next_change(job: &[u8], from: usize) -> Option<Change>
    ensures { result ≡ next_of job.now from }
{
    if !length_ok(job.len()) {
        return None;
    }
    if !offsets_ok(job) {
        return None;
    }
    let l = layout_of(job);
    let at = next_dirty(job, l, from)?;
    Some(change_at(job, l, at))
}
