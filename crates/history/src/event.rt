// One event: its header, its body, and what it does.
ghost use Rattle.std.specs.Prelude.{◌<◌};

use super::runs::Body;
use super::standing::{AREA, Standing};
use super::{poke, runs, writing};
use frames::{Ended, Header, State, Unknown, outcome};

// What an event is.
#[derive(Clone, Copy)]
enum Kind {
    Run(Body),
    Poke,
    Table,
    Write,
}

impl TryFrom<u32> for Kind {
    type Error = Unknown;

    fn try_from(number: u32) -> Result<Self, Unknown> {
        match number {
            0 => Ok(Kind::Run(Body::Job)),
            1 => Ok(Kind::Run(Body::Script)),
            2 => Ok(Kind::Poke),
            3 => Ok(Kind::Table),
            4 => Ok(Kind::Write),
            _ => Err(Unknown),
        }
    }
}

// One byte more than a job may have, so that a body that is too long is seen.
const LARGEST: usize = 23049;

// A job or a script.
fn run(
    s: &mut State,
    t: &mut Standing,
    lines: &mut [u8; AREA],
    kind: Body,
    h: Header,
    k: u64,
) -> Result<(), Ended>
    requires { h.lines < 65536 }
{
    let mut body = [0u8; LARGEST];
    let count = s.read_body(&mut body, h.size)?;
    match kind {
        Body::Job => s.head(b"job ", k),
        Body::Script => s.head(b"script ", k),
    }
    runs::run(
        &mut s.out,
        t,
        &mut lines[..5 * h.lines],
        kind,
        &body[..count],
        h,
    );
    Ok(())
}

// The entries of a poke, as they come.
fn poke(s: &mut State, t: &mut Standing, h: Header, k: u64) -> Result<(), Ended> {
    let mut entry = [0u8; 8];
    for i in 0..h.size / 8 {
        s.part(&mut entry)?;
        poke::set(t, &entry);
    }
    s.pass(h.size % 8)?;
    s.head(b"poke ", k);
    Ok(())
}

// What stands, as it would be lent: records and variables.
fn table(s: &mut State, t: &Standing, places: usize, k: u64) {
    s.head(b"table ", k);
    let v = &t.variables;
    outcome::put_records(&mut s.out, &t.words, places);
    outcome::put_variables(&mut s.out, v.count, &v.levels, &v.values);
}

// The next event, which is number k. Of a body of the last kinds, and of no kind, nothing is read.
pub fn next(s: &mut State, t: &mut Standing, lines: &mut [u8; AREA], k: u64) -> Result<(), Ended> {
    let e = s.next_event()?;
    let h = e.header;
    match Kind::try_from(e.kind) {
        Ok(Kind::Run(kind)) => run(s, t, lines, kind, h, k)?,
        Ok(Kind::Poke) => poke(s, t, h, k)?,
        Ok(Kind::Table) => {
            s.pass(h.size)?;
            table(s, t, h.places, k);
        }
        Ok(Kind::Write) => {
            s.pass(h.size)?;
            writing::put(&mut s.out, t, h, k);
        }
        Err(_) => {
            s.pass(h.size)?;
            s.head(b"unknown ", k);
        }
    }
    Ok(())
}
