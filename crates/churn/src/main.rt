// Fills the node table to its last place, removes subtrees, fills it again and clears it, round after round. After each filling every node is
// looked at in order, and whatever does not come out as it must is counted as a fault.
#![tactic(auto)]

mod rounds;
mod run;

use run::Run;

const ROUNDS: u32 = 420;

// Prints a name and a number on a line.
fn line(name: &[u8], n: u64) {
    io::write_all(1, name);
    io::print_decimal(1, n);
    io::write_all(1, b"\n");
}

fn main() {
    let mut run = Run::new();
    for _ in 0..ROUNDS {
        rounds::round(&mut run);
    }
    line(b"rounds ", u64::from(ROUNDS));
    line(b"operations ", run.operations);
    line(b"nodes added ", run.added);
    line(b"additions refused ", run.refused);
    line(b"subtrees removed ", run.removed);
    line(b"faults ", run.faults);
}
