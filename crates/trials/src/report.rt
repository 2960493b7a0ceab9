// Prints what a job comes to, on a line.
ghost use Rattle.std.specs.Prelude.{◌≡◌, length};

use fields::reads::{byte_at, full_at};
use monitor::Outcome;
use print::{Out, answer};
use rules::numbers::bits;

// A signed number behind a space.
fn signed(out: &mut Out, bits: u32) {
    out.byte(b' ');
    out.signed(bits);
}

// A board line: its number and its reader set.
fn line(out: &mut Out, entry: &[u8])
    requires { length entry.now ≡ 5 }
{
    signed(out, full_at(entry, 0));
    out.item(b" ", byte_at(entry, 4) as u64);
}

// The name, the answer, the board lines, of five bytes each, and the values of the variables.
pub fn show(
    out: &mut Out,
    name: &[u8],
    o: Outcome,
    lines: &[u8],
    values: &[i32],
    variables: usize,
) {
    let a = answer::of(o);
    out.text(name);
    out.item(b": ending ", u64::from(a.ending));
    out.item(b" at ", a.index as u64);
    out.item(b", steps ", u64::from(a.steps));
    out.item(b", lines ", a.lines as u64);
    out.text(b", board");
    for entry in lines.chunks_exact(5).take(a.lines) {
        line(out, entry);
    }
    out.text(b", values");
    for v in values.iter().take(variables) {
        signed(out, bits(*v));
    }
    out.byte(b'\n');
    out.flush();
}
