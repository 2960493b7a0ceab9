// The cleaning program: one stored job on standard input. The cleaned bytes go to standard output, then each change to standard error, on a line of its own; of a job
// that the old rules turn back only its number and index go to standard error.
#![tactic(auto)]

use cleaner::{clean, next_change};
use job::Refusal;
use print::Out;

// The file descriptors of standard input and standard output.
const STDIN_FILENO: i32 = 0;

const STDOUT_FILENO: i32 = 1;

// The changes of a job.
fn report(job: &[u8]) {
    let mut out = Out::to(print::ERRORS);
    let mut from = 0;
    while let Some(change) = next_change(job, from) {
        out.number(change.spot.section as u64);
        out.item(b" ", change.spot.index as u64);
        out.item(b" ", change.spot.byte as u64);
        out.item(b" ", u64::from(change.old));
        out.byte(b'\n');
        from = change.after;
    }
    out.flush();
}

fn refuse(r: Refusal) {
    let mut out = Out::to(print::ERRORS);
    out.item(b"refused ", u64::from(r.number));
    out.item(b" at ", r.index as u64);
    out.byte(b'\n');
    out.flush();
}

// The bytes as they were stand beside those that are cleaned: a reader of the report that is slow or gone keeps nobody from the cleaned job. Where that is lost, there is
// nothing to report.
fn run(old: &[u8], job: &mut [u8]) {
    match clean(job) {
        Ok(()) => {
            if io::write_all(STDOUT_FILENO, job) {
                report(old);
            }
        }
        Err(r) => refuse(r),
    }
}

// The buffer has more places than a job has bytes, so that a job that is too long is seen.
fn main() {
    let mut old = io::large_buffer();
    let n = io::read_full(STDIN_FILENO, &mut old);
    let mut job = old;
    run(&old[..n], &mut job[..n]);
}
