// Puts jobs in text form, one to a line of standard input, through the run over job bytes, and prints what each comes to.
#![tactic(auto)]

mod report;
mod settings;

ghost use Rattle.std.specs.Prelude.{◌≤◌};

use monitor::run_words;
use print::Out;
use print::runner::variables_of;
use settings::Settings;
use text::{expand, find};

// The file descriptor of standard input.
const STDIN_FILENO: i32 = 0;

// Runs a job with what it is lent, and prints what it comes to.
fn run_lent(
    out: &mut Out,
    name: &[u8],
    bytes: &[u8],
    budget: u64,
    words: &mut [u32],
    levels: &mut [u8],
    values: &mut [i32],
    lines: &mut [u8],
) {
    let o = run_words(bytes, budget, words, levels, values, lines);
    report::show(out, name, o, lines, values, variables_of(bytes));
}

// Lends a job buffers of the lengths that it asks for, each cut on its own: what a run does with buffers that do not fit is tried too.
fn run_one(out: &mut Out, name: &[u8], bytes: &[u8], s: Settings)
    requires { (s.words ≤ 5130) × (s.room ≤ 64) × (s.lines ≤ 1280) }
{
    let mut words = [0u32; 5130];
    let mut levels = [0u8; 64];
    let mut values = [0i32; 64];
    let mut lines = [0u8; 1280];
    run_lent(
        out,
        name,
        bytes,
        s.budget,
        &mut words[..s.words],
        &mut levels[..s.room],
        &mut values[..s.room],
        &mut lines[..s.lines],
    );
}

// What stands before the colon is the job's name and what it is run with, what stands behind it the job. A line with no colon, or with # in front, is
// none.
fn run_line(out: &mut Out, line: &[u8]) {
    let Some(colon) = line.iter().position(|b| *b == b':') else {
        return;
    };
    if line[0] == b'#' {
        return;
    }
    let comma = find(line, 0, b',');
    let mut bytes = [0u8; 24576];
    let n = expand(&line[colon..], &mut bytes);
    let s = settings::read(&line[..colon]);
    run_one(out, &line[..comma], &bytes[..n], s);
}

fn main() {
    let mut lines = io::large_buffer();
    let n = io::read_full(STDIN_FILENO, &mut lines);
    let mut out = Out::to(print::OUTPUT);
    for line in lines[..n].split(|b| *b == b'\n') {
        run_line(&mut out, line);
    }
}
