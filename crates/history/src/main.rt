// Runs scripts over a tree that stays, for tests. Standard input is a sequence of events: the kind, the body's length and the budget in 4 bytes each, the
// places and the line capacity in 2 bytes each, little-endian, then the body. For each, in order, what became of it goes to standard output; events are
// counted from 0.
#![tactic(auto)]

mod event;
mod poke;
mod runs;
mod standing;
mod writing;

use frames::State;
use standing::{AREA, Standing};
use std::io::Stdin;

// A proved loop has to end, and nothing says that the input does: so this one ends too where the events can be counted no further.
fn history(stdin: Stdin, t: &mut Standing, lines: &mut [u8; AREA]) {
    let mut s = State::start(stdin);
    for k in 0..u64::MAX {
        if event::next(&mut s, t, lines, k).is_err() {
            return;
        }
    }
}

fn main(rt: HostRuntime) {
    let mut t = Standing::none();
    let mut lines = [0u8; AREA];
    history(rt.stdin(), &mut t, &mut lines);
}
