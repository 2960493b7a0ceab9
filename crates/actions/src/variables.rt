// The actions on variables and the board: commands 1 and 6. Neither stands at a node, so their rule joins E with the context alone.
ghost use Rattle.std.specs.Prelude.{◌≡◌, List, ℕ, ◌+◌, ◌*◌, ◌%◌, ◌<◌, ◌≤◌, ℤ, length};
ghost use Rattle.rules.specs.Run as Run;
ghost use Rattle.rules.specs.Script.{Expression};
ghost use Rattle.actions.specs.Board.{capacity, replaced};
ghost use Rattle.actions.specs.Shows.{slices};
ghost use Rattle.actions.specs.Stands.{Timely};
ghost use Rattle.actions.specs.Acts.{Acts, Evaluates};

use super::control::{Running, Stepped, halt, onward};
use super::evaluate::Valued;
use super::memory::Memory;
use rules::levels::{join, not_above};
use rules::limits::{BOARD_FULL, FLOW, OVERFLOW};

// Command 1: the target becomes the expression, whose value and level are e.
pub fn assign(
    e: Valued,
    target: u8,
    levels: &[u8],
    values: &mut [i32],
    pc: u8,
    r: Running,
) -> Stepped
    requires { Timely r × ((target < length levels.now) × (target < length values.old)) }
    ensures { (w b : List ℕ) (places vars : ℕ) (x : Expression) → r.memory.cursor < places → target < vars → vars ≤ length values.old
        → Evaluates w levels.now values.old places vars r.memory x e
        → Acts places vars (slices w levels.now values.old b) (slices w levels.now values.new b) r result
        (λ μ. Run.assign pc μ target (Run.variable_at μ.variables target) x) }
{
    let m = r.memory;
    let i = usize::from(target);
    if !not_above(join(e.level, pc), levels[i]) {
        return halt(r, FLOW);
    }
    let Some(z) = e.value else {
        return halt(r, OVERFLOW);
    };
    values[i] = z;
    onward(r, m)
}

// Line n: four bytes, the lowest first, and its readers. One store each makes one store of a word; a copy of the four would leave a test of whether they overlap.
fn put_line(lines: &mut [u8], n: usize, v: i32, readers: u8)
    requires { 5 * n + 5 ≤ length lines.old }
    ensures { lines.new ≡ replaced lines.old n (record { number = v; readers = readers }) }
{
    let at = 5 * n;
    let [a, b, c, d] = v.to_le_bytes();
    lines[at] = a;
    lines[at + 1] = b;
    lines[at + 2] = c;
    lines[at + 3] = d;
    lines[at + 4] = readers;
}

// Command 6: a board line for some readers, the expression whose value and level are e.
pub fn output(e: Valued, readers: u8, lines: &mut [u8], pc: u8, r: Running) -> Stepped
    requires { Timely r × (5 * r.memory.lines ≤ length lines.old) }
    ensures { (w l : List ℕ) (v : List ℤ) (places vars : ℕ) (x : Expression) → r.memory.cursor < places → Evaluates w l v places vars r.memory x e
        → Acts places vars (slices w l v lines.old) (slices w l v lines.new) r result
        (λ μ. Run.output pc μ (capacity lines.old) readers x) }
{
    let m = r.memory;
    if !not_above(join(e.level, pc), readers) {
        return halt(r, FLOW);
    }
    let Some(z) = e.value else {
        return halt(r, OVERFLOW);
    };
    let n = m.lines;
    if n >= lines.len() / 5 {
        return halt(r, BOARD_FULL);
    }
    put_line(lines, n, z, readers);
    onward(r, Memory { lines: n + 1, ..m })
}
