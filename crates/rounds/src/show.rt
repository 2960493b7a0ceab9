// What an event has come to, as it is printed.
ghost use Rattle.std.specs.Prelude.{◌≡◌, ◌*◌, ◌<◌, ◌≤◌, length};
ghost use Rattle.rules.specs.Limits.{max_variables, max_runs};
ghost use Rattle.turns.specs.Pool.{table_size, area_size, Sized, Shows};

use super::event::{LEVELS, LINES, VALUES, WORDS};
use frames::outcome;
use monitor::Outcome;
use print::{Out, answer};
use rules::limits::MAX_VARIABLES;
use turns::pool;
use turns::pool::{Place, Pool, Reply};

// A newcomer is taken in, or turned back with its answer.
pub fn put_admission(out: &mut Out, reply: Reply) {
    match reply {
        Reply::Idle => (),
        Reply::Joins => out.text(b"taken\n"),
        Reply::Answers {
            name,
            took,
            outcome,
        } => outcome::put_answer(out, answer::of(outcome)),
        Reply::GoesOn { name, took } => (),
    }
}

// Which run had the turn, and how many steps it took.
fn put_took(out: &mut Out, name: u64, took: usize) {
    out.item(b"run ", name);
    out.item(b" took ", took as u64);
    out.byte(b'\n');
}

// What a run that has ended leaves in the parts of its place.
fn put_ended(
    out: &mut Out,
    o: Outcome,
    i: usize,
    place: Place,
    words: &[u32],
    levels: &[u8],
    values: &[i32],
    lines: &[u8],
)
    requires { (i < max_runs) × Sized place × (length words.now ≡ table_size * max_runs)
        × (length levels.now ≡ max_variables * max_runs) × (length values.now ≡ max_variables * max_runs) × (length lines.now ≡ area_size * max_runs) }
{
    let w0 = table::WORDS * i;
    let w1 = w0 + table::WORDS;
    let v0 = MAX_VARIABLES * i;
    let v1 = v0 + MAX_VARIABLES;
    let b0 = pool::AREA * i;
    let b1 = b0 + 5 * place.capacity;
    outcome::put_run(
        out,
        o,
        place.frame.vars,
        place.frame.places,
        &words[w0..w1],
        &levels[v0..v1],
        &values[v0..v1],
        &lines[b0..b1],
    );
}

// What became of a turn.
pub fn put_turn(
    out: &mut Out,
    reply: Reply,
    p: Pool,
    words: &[u32; WORDS],
    levels: &[u8; LEVELS],
    values: &[i32; VALUES],
    lines: &[u8; LINES],
)
    requires { Shows p reply }
{
    match reply {
        Reply::Idle => out.text(b"idle\n"),
        Reply::Joins => (),
        Reply::Answers {
            name,
            took,
            outcome,
        } => {
            put_took(out, name, took);
            let i = pool::ended(p);
            let place = p.places[i];
            put_ended(out, outcome, i, place, words, levels, values, lines);
        }
        Reply::GoesOn { name, took } => put_took(out, name, took),
    }
}
