// Runs that take turns, for tests. Standard input is a sequence of events: the kind, the body's length and the budget in 4 bytes each, the places and the
// line capacity in 2 bytes each, little-endian, then the body. For each, in order, what became of it goes to standard output; events are counted from 0.
#![tactic(auto)]

mod event;
mod show;

use event::{JOBS, LEVELS, LINES, MARKS, PLANS, VALUES, WORDS};
use frames::State;
use std::io::Stdin;

// A proved loop has to end, and nothing says that the input does: so this one ends too where the events can be counted no further.
fn rounds(
    stdin: Stdin,
    jobs: &mut [u8; JOBS],
    plans: &mut [u32; PLANS],
    levels: &mut [u8; LEVELS],
    words: &mut [u32; WORDS],
    values: &mut [i32; VALUES],
    lines: &mut [u8; LINES],
    marks: &mut [u16; MARKS],
) {
    let mut s = State::start(stdin);
    let mut p = event::start(jobs, plans, levels, words, values, lines, marks);
    for k in 0..u64::MAX {
        let went = event::next(
            &mut s, &mut p, k, jobs, plans, levels, words, values, lines, marks,
        );
        if went.is_err() {
            return;
        }
    }
}

fn main(rt: HostRuntime) {
    let mut jobs = [0u8; JOBS];
    let mut plans = [0u32; PLANS];
    let mut levels = [0u8; LEVELS];
    let mut words = [0u32; WORDS];
    let mut values = [0i32; VALUES];
    let mut lines = [0u8; LINES];
    let mut marks = [0u16; MARKS];
    rounds(
        rt.stdin(),
        &mut jobs,
        &mut plans,
        &mut levels,
        &mut words,
        &mut values,
        &mut lines,
        &mut marks,
    );
}
