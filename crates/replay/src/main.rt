// Runs many jobs, for tests and bulk work. Standard input is a sequence of frames: the job's length and the budget in 4 bytes each, the places and the
// line capacity in 2 bytes each, little-endian, then the job. For each, in order, what became of it goes to standard output; jobs are counted from 0.
#![tactic(auto)]

mod frame;

use frames::State;
use std::io::Stdin;

// A proved loop has to end, and nothing says that the input does: so this one ends too where the jobs can be counted no further.
fn replay(stdin: Stdin, job: &mut [u8]) {
    let mut s = State::start(stdin);
    for k in 0..u64::MAX {
        if frame::next(&mut s, job, k).is_err() {
            return;
        }
    }
}

// The job's buffer has one place more than a job may have bytes, so that a job that is too long is seen.
fn main(rt: HostRuntime) {
    let mut job = [0u8; 23049];
    replay(rt.stdin(), &mut job);
}
