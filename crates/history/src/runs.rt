// The run of a job, which leaves its tree and variables to stand, and the run of a script over them.
use super::standing::{Standing, Variables};
use frames::outcome::{PLACES, WORDS};
use frames::{Header, outcome};
use monitor::Outcome;
use own::{follow_own, run_own};
use print::runner::variables_of;
use print::{Out, answer};

// What is run.
#[derive(Clone, Copy)]
pub enum Body {
    Job,
    Script,
}

// Two fields of one struct are not lent in one call, so levels and values are copied for a run.

// A job over the first places. What is turned back leaves all as it was.
fn job(t: &mut Standing, lines: &mut [u8], bytes: &[u8], h: Header) -> Outcome {
    let mut words = [0u32; WORDS];
    let mut levels = t.variables.levels;
    let mut values = t.variables.values;
    let o = run_own(
        bytes,
        h.budget,
        h.places,
        &mut levels,
        &mut values,
        lines,
        &mut words,
    );
    if answer::was_run(o) {
        let n = table::CELL * h.places.min(PLACES);
        t.words[..n].copy_from_slice(&words[..n]);
        t.variables = Variables {
            count: variables_of(bytes),
            levels,
            values,
        };
    }
    o
}

// A script over what stands, with the first places lent.
fn script(t: &mut Standing, lines: &mut [u8], section: &[u8], h: Header) -> Outcome {
    let count = t.variables.count;
    let mut levels = t.variables.levels;
    let mut values = t.variables.values;
    let o = follow_own(
        section,
        h.budget,
        h.places,
        &mut levels[..count],
        &mut values[..count],
        lines,
        &mut t.words,
    );
    t.variables = Variables {
        count,
        levels,
        values,
    };
    o
}

// Runs a job or a script, and puts what became of it.
pub fn run(out: &mut Out, t: &mut Standing, lines: &mut [u8], kind: Body, body: &[u8], h: Header) {
    let o = match kind {
        Body::Job => job(t, lines, body, h),
        Body::Script => script(t, lines, body, h),
    };
    let v = t.variables;
    outcome::put(
        out, o, v.count, h.places, &t.words, &v.levels, &v.values, lines,
    );
}
