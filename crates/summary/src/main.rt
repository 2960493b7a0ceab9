// The summary program: one job on standard input. For each node, in their order, how many parties' matters it carries goes to standard output, on a line of its own; of a job that
// is turned back only its number and index go to standard error.
#![tactic(auto)]

ghost use Rattle.std.specs.Prelude.{◌≡◌, ◌+◌, ◌≤◌, length};
ghost use Rattle.rules.specs.Limits.{node_size};
ghost use Rattle.rules.specs.Level.{parties};
ghost use Rattle.rules.specs.Bytes.{nodes_at, node_count, node_place};
ghost use Rattle.rules.specs.Check.{accepted, check_bytes};
ghost use Rattle.rules.specs.Job.{label_of};
ghost use Rattle.rules.specs.Summary.{carried, summary};
ghost use Rattle.fields.specs.Layout.{layout_of};
ghost use Rattle.summary.specs.Summed.{Summed};

use fields::nodes::levels_at;
use fields::sections::Layout;
use job::Refusal;
use print::Out;
use rules::levels::{join, parties};

// The file descriptor of standard input.
const STDIN_FILENO: i32 = 0;

// How many parties' matters node i carries.
fn parties_at(job: &[u8], base: usize, i: usize) -> u32
    requires { node_place base i + node_size ≤ length job.now }
    ensures { result ≡ parties (carried (label_of job.now base i)) }
{
    let l = levels_at(job, base, i);
    parties(join(join(l.existence, l.content), l.structure))
}

// Puts the summary of a job whose nodes start at base: a line for each of them.
fn put_summary(out: &mut Out, job: &[u8], base: usize, count: usize)
    requires { (check_bytes job.now ≡ accepted) × (base ≡ nodes_at job.now) × (count ≡ node_count job.now) }
    ensures { Summed (summary job.now) out.old.waits (length (summary job.now)) out.new.waits }
{
    for i in 0..count {
        out.number(u64::from(parties_at(job, base, i)));
        out.byte(b'\n');
    }
}

// The summary of an accepted job.
fn report(job: &[u8], l: Layout)
    requires { (check_bytes job.now ≡ accepted) × (l ≡ layout_of job.now) }
{
    let mut out = Out::to(print::OUTPUT);
    put_summary(&mut out, job, l.tree, l.nodes);
    out.flush();
}

fn refuse(r: Refusal) {
    let mut out = Out::to(print::ERRORS);
    out.item(b"refused ", u64::from(r.number));
    out.item(b" at ", r.index as u64);
    out.byte(b'\n');
    out.flush();
}

fn run(job: &[u8]) {
    match job::check(job) {
        Ok(l) => report(job, l),
        Err(r) => refuse(r),
    }
}

// The buffer has more places than a job has bytes, so that a job that is too long is seen.
fn main() {
    let mut job = io::large_buffer();
    let n = io::read_full(STDIN_FILENO, &mut job);
    run(&job[..n]);
}
