// One event: its header, its body, and what it does.
ghost use Rattle.std.specs.Prelude.{◌≡◌, List, [], ℕ, ◌*◌, ◌<◌, ◌≤◌, length};
ghost use Rattle.rules.specs.Limits.{max_bytes, max_variables, max_runs};
ghost use Rattle.actions.specs.Marks.{marks_size};
ghost use Rattle.places.specs.Pieces.{plan_size};
ghost use Rattle.turns.specs.Pool.{table_size, area_size, parts, Open, Housed};

use super::show;
use actions::marks;
use frames::{Ended, Header, State, Unknown};
use job::plan;
use rules::limits::{MAX_BYTES, MAX_RUNS, MAX_VARIABLES};
use turns::pool;
use turns::pool::Pool;

// The slices of eight parts that the runs are lent. A call lends most of them at once, which it can't do with fields of one struct, so each goes by itself.
pub const JOBS: usize = MAX_BYTES * MAX_RUNS;

pub const PLANS: usize = plan::WORDS * MAX_RUNS;

pub const LEVELS: usize = MAX_VARIABLES * MAX_RUNS;

pub const WORDS: usize = table::WORDS * MAX_RUNS;

pub const VALUES: usize = MAX_VARIABLES * MAX_RUNS;

pub const LINES: usize = pool::AREA * MAX_RUNS;

pub const MARKS: usize = marks::SIZE * MAX_RUNS;

// One byte more than a job may have, so that a body that is too long is seen.
const LARGEST: usize = 23049;

// What an event is.
#[derive(Clone, Copy)]
enum Kind {
    Newcomer,
    Turn,
}

impl TryFrom<u32> for Kind {
    type Error = Unknown;

    fn try_from(number: u32) -> Result<Self, Unknown> {
        match number {
            0 => Ok(Kind::Newcomer),
            1 => Ok(Kind::Turn),
            _ => Err(Unknown),
        }
    }
}

// Before the first event: no run yet.
pub fn start(
    jobs: &[u8; JOBS],
    plans: &[u32; PLANS],
    levels: &[u8; LEVELS],
    words: &[u32; WORDS],
    values: &[i32; VALUES],
    lines: &[u8; LINES],
    marks: &[u16; MARKS],
) -> Pool
    ensures { Housed result (parts jobs.now plans.now levels.now words.now values.now lines.now marks.now) }
{
    pool::empty()
}

// A newcomer's body is read, and the newcomer comes.
fn newcomer(
    s: &mut State,
    p: &mut Pool,
    h: Header,
    k: u64,
    jobs: &mut [u8; JOBS],
    plans: &mut [u32; PLANS],
    levels: &mut [u8; LEVELS],
    words: &mut [u32; WORDS],
    values: &mut [i32; VALUES],
    marks: &mut [u16; MARKS],
) -> Result<(), Ended>
    requires { (h.lines < 65536) × Open p.old (parts jobs.old plans.old levels.old words.old values.old [] marks.old) }
    ensures { (lines : List ℕ) → Housed p.old (parts jobs.old plans.old levels.old words.old values.old lines marks.old)
        → Housed p.new (parts jobs.new plans.new levels.new words.new values.new lines marks.new) }
{
    let mut body = [0u8; LARGEST];
    let count = s.read_body(&mut body, h.size)?;
    s.head(b"newcomer ", k);
    let a = pool::arrive(
        *p,
        k,
        &body[..count],
        h.budget,
        h.places,
        h.lines,
        jobs,
        plans,
        levels,
        words,
        values,
        marks,
    );
    let reply = a.reply;
    *p = a.pool;
    show::put_admission(&mut s.out, reply);
    Ok(())
}

// The turn of the next run in the circle. Of the event's body nothing is read.
fn turn(
    s: &mut State,
    p: &mut Pool,
    size: usize,
    k: u64,
    jobs: &[u8; JOBS],
    plans: &[u32; PLANS],
    levels: &[u8; LEVELS],
    words: &mut [u32; WORDS],
    values: &mut [i32; VALUES],
    lines: &mut [u8; LINES],
    marks: &mut [u16; MARKS],
) -> Result<(), Ended>
    requires { Housed p.old (parts jobs.now plans.now levels.now words.old values.old lines.old marks.old) }
    ensures { Housed p.new (parts jobs.now plans.now levels.now words.new values.new lines.new marks.new) }
{
    s.pass(size)?;
    s.head(b"turn ", k);
    let a = pool::turn(*p, jobs, plans, levels, words, values, lines, marks);
    let reply = a.reply;
    *p = a.pool;
    show::put_turn(&mut s.out, reply, a.pool, words, levels, values, lines);
    Ok(())
}

// An event of no kind. Of its body nothing is read.
fn unknown(s: &mut State, size: usize, k: u64) -> Result<(), Ended> {
    s.pass(size)?;
    s.head(b"unknown ", k);
    Ok(())
}

// The next event, which is number k.
pub fn next(
    s: &mut State,
    p: &mut Pool,
    k: u64,
    jobs: &mut [u8; JOBS],
    plans: &mut [u32; PLANS],
    levels: &mut [u8; LEVELS],
    words: &mut [u32; WORDS],
    values: &mut [i32; VALUES],
    lines: &mut [u8; LINES],
    marks: &mut [u16; MARKS],
) -> Result<(), Ended>
    requires { Housed p.old (parts jobs.old plans.old levels.old words.old values.old lines.old marks.old) }
    ensures { Housed p.new (parts jobs.new plans.new levels.new words.new values.new lines.new marks.new) }
{
    let e = s.next_event()?;
    let h = e.header;
    match Kind::try_from(e.kind) {
        Ok(Kind::Newcomer) => newcomer(s, p, h, k, jobs, plans, levels, words, values, marks),
        Ok(Kind::Turn) => turn(
            s, p, h.size, k, jobs, plans, levels, words, values, lines, marks,
        ),
        Err(_) => unknown(s, h.size, k),
    }
}
