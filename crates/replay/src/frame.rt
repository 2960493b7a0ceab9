// One frame: its header, its job, and what became of it.
use frames::outcome::WORDS;
use frames::{Ended, Header, State, outcome, read_header};
use own::run_own;
use print::Out;
use print::runner::{VARIABLES, variables_of};

// A line capacity above this one counts as this one; of places the run has 513, one more than a table may have.
const LINES: usize = 1024;

// Runs a job through the run over lent node records, and puts what became of it.
fn run(out: &mut Out, job: &[u8], h: Header) {
    let mut words = [0u32; WORDS];
    let mut levels = [0u8; VARIABLES];
    let mut values = [0i32; VARIABLES];
    let mut area = [0u8; 5 * LINES];
    let lines = &mut area[..5 * h.lines.min(LINES)];
    let o = run_own(
        job,
        h.budget,
        h.places,
        &mut levels,
        &mut values,
        lines,
        &mut words,
    );
    let n = variables_of(job);
    outcome::put(out, o, n, h.places, &words, &levels, &values, lines);
}

// The next frame, which is number k.
pub fn next(s: &mut State, job: &mut [u8], k: u64) -> Result<(), Ended> {
    let mut head = [0u8; 12];
    s.next(&mut head)?;
    let h = read_header(&head, 0);
    let count = s.read_body(job, h.size)?;
    s.head(b"job ", k);
    run(&mut s.out, &job[..count], h);
    Ok(())
}
