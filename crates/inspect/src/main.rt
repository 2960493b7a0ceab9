// Inspection of one job, for the house: the job comes on standard input and is run as the board runner does it. What became of it, its lines, its
// variables and its last tree go to standard output, whatever their levels.
#![tactic(auto)]

mod names;
mod tree;

ghost use Rattle.std.specs.Prelude.{◌≤◌};

use monitor::{Outcome, run_words};
use print::answer::Answer;
use print::runner::{AREA, BUDGET, VARIABLES, WORDS, variables_of};
use print::{Out, answer};
use rules::numbers::bits;

// The file descriptor of standard input.
const STDIN_FILENO: i32 = 0;

// The ending with its name, and the record.
fn ending(out: &mut Out, a: Answer) {
    out.item(b"ending ", u64::from(a.ending));
    out.byte(b' ');
    out.text(names::name(a.ending));
    out.item(b"\nrecord ", a.index as u64);
    out.byte(b'\n');
}

// The steps and the board lines.
fn board(out: &mut Out, a: Answer, lines: &[u8]) {
    out.item(b"steps ", u64::from(a.steps));
    out.item(b"\nlines ", a.lines as u64);
    out.byte(b'\n');
    out.lines(b"  ", lines, a.lines);
}

// The first n variables with their levels, each on a line of its own.
fn variables(out: &mut Out, n: usize, levels: &[u8; VARIABLES], values: &[i32; VARIABLES]) {
    out.item(b"variables ", n as u64);
    out.byte(b'\n');
    for (i, (level, value)) in levels.iter().zip(values).take(n).enumerate() {
        out.item(b"  ", i as u64);
        out.item(b": level ", u64::from(*level));
        out.text(b", value ");
        out.signed(bits(*value));
        out.byte(b'\n');
    }
}

// What became of a job, and its lines, its variables and its tree if it was run.
fn show(
    job: &[u8],
    o: Outcome,
    words: &[u32; WORDS],
    levels: &[u8; VARIABLES],
    values: &[i32; VARIABLES],
    lines: &[u8],
) {
    let a = answer::of(o);
    let mut out = Out::to(print::OUTPUT);
    ending(&mut out, a);
    if answer::was_run(o) {
        board(&mut out, a, lines);
        variables(&mut out, variables_of(job), levels, values);
        tree::show(&mut out, words);
    }
    out.flush();
}

fn run(job: &[u8]) {
    let mut words = [0u32; WORDS];
    let mut levels = [0u8; VARIABLES];
    let mut values = [0i32; VARIABLES];
    let mut lines = [0u8; AREA];
    let o = run_words(
        job,
        BUDGET,
        &mut words,
        &mut levels,
        &mut values,
        &mut lines,
    );
    show(job, o, &words, &levels, &values, &lines);
}

// The buffer has more places than a job has bytes, so that a job that is too long is seen.
fn main() {
    let mut job = io::large_buffer();
    let n = io::read_full(STDIN_FILENO, &mut job);
    run(&job[..n]);
}
