// The rearranging program: one stored job on standard input. The rearranged bytes go to standard output; of a job that was turned back so far only its number and index go to
// standard error.
#![tactic(auto)]

use arranger::arrange;
use job::Refusal;
use print::Out;

// The file descriptors of standard input and standard output.
const STDIN_FILENO: i32 = 0;

const STDOUT_FILENO: i32 = 1;

fn refuse(r: Refusal) {
    let mut out = Out::to(print::ERRORS);
    out.item(b"refused ", u64::from(r.number));
    out.item(b" at ", r.index as u64);
    out.byte(b'\n');
    out.flush();
}

fn run(job: &mut [u8]) {
    match arrange(job) {
        Ok(()) => {
            io::write_all(STDOUT_FILENO, job);
        }
        Err(r) => refuse(r),
    }
}

// The buffer has more places than a job has bytes, so that a job that is too long is seen.
fn main() {
    let mut job = io::large_buffer();
    let n = io::read_full(STDIN_FILENO, &mut job);
    run(&mut job[..n]);
}
