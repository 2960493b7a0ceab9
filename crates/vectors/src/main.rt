// Puts jobs in text form, one to a line of standard input, through the checks, and prints what each comes to.
#![tactic(auto)]

use fields::sections::Layout;
use job::Refusal;
use text::expand;

// The file descriptors of standard input and standard output.
const STDIN_FILENO: i32 = 0;

const STDOUT_FILENO: i32 = 1;

// Prints bytes and a number behind them. Out of print would do it too, but brings all that a run stands on, and here the checks stand alone.
fn item(name: &[u8], n: u64) {
    io::write_all(STDOUT_FILENO, name);
    io::print_decimal(STDOUT_FILENO, n);
}

// Prints the answer of the checks.
fn print_answer(answer: Result<Layout, Refusal>) {
    match answer {
        Ok(l) => {
            item(b" accepted, variables ", l.variables as u64);
            item(b" nodes ", l.nodes as u64);
            item(b" records ", l.records as u64);
        }
        Err(r) => {
            item(b" refused ", u64::from(r.number));
            item(b" at ", r.index as u64);
        }
    }
    io::write_all(STDOUT_FILENO, b"\n");
}

// What stands before the colon is the job's name, what stands behind it the job. A line with no colon, or with # in front, is none.
fn run_line(line: &[u8]) {
    let Some(colon) = line.iter().position(|b| *b == b':') else {
        return;
    };
    if line[0] == b'#' {
        return;
    }
    let mut bytes = [0u8; 24576];
    let n = expand(&line[colon..], &mut bytes);
    io::write_all(STDOUT_FILENO, &line[..colon]);
    print_answer(job::check(&bytes[..n]));
}

fn main() {
    let mut lines = io::large_buffer();
    let n = io::read_full(STDIN_FILENO, &mut lines);
    for line in lines[..n].split(|b| *b == b'\n') {
        run_line(line);
    }
}
