// The board runner: one job on standard input, with a budget of 100,000, 512 places and 256 lines. The board goes to standard output, how the run
// ended to standard error.
#![tactic(auto)]

use monitor::{Outcome, run_words};
use print::runner::{AREA, BUDGET, VARIABLES, WORDS};
use print::{Out, answer};

// The file descriptor of standard input.
const STDIN_FILENO: i32 = 0;

// What became of a job, where, and in how many steps: a line of standard error.
fn verdict(o: Outcome) {
    let mut out = Out::to(print::ERRORS);
    match o {
        Outcome::Refused { number, index } => {
            out.item(b"refused ", u64::from(number));
            out.item(b" at ", index as u64);
        }
        Outcome::Finished { steps, .. } => {
            out.item(b"finished steps ", u64::from(steps));
        }
        Outcome::Stopped {
            number,
            index,
            steps,
            ..
        } => {
            out.item(b"stopped ", u64::from(number));
            out.item(b" at ", index as u64);
            out.item(b" steps ", u64::from(steps));
        }
    }
    out.byte(b'\n');
    out.flush();
}

// The board of a run, with the number of its lines.
fn board(lines: &[u8], n: usize) {
    let mut out = Out::to(print::OUTPUT);
    out.text(b"board\n");
    out.lines(b"", lines, n);
    out.item(b"end ", n as u64);
    out.byte(b'\n');
    out.flush();
}

fn run(job: &[u8]) {
    let mut words = [0u32; WORDS];
    let mut levels = [0u8; VARIABLES];
    let mut values = [0i32; VARIABLES];
    let mut lines = [0u8; AREA];
    let o = run_words(
        job,
        BUDGET,
        &mut words,
        &mut levels,
        &mut values,
        &mut lines,
    );
    if answer::was_run(o) {
        board(&lines, answer::of(o).lines);
    }
    verdict(o);
}

// The buffer has more places than a job has bytes, so that a job that is too long is seen.
fn main() {
    let mut job = io::large_buffer();
    let n = io::read_full(STDIN_FILENO, &mut job);
    run(&job[..n]);
}
