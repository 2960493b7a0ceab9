// What became of a job or a script: its answer, and where it was run its lines, variables and tree.
ghost use Rattle.std.specs.Prelude.{◌∷◌, [], ◌≡◌, ℕ, ◌<◌, ◌≤◌, min, length};
ghost use Rattle.rules.specs.Tree.{Forest, Place, sub, label};
ghost use Rattle.table.specs.Cells.{cells, Within};
ghost use Rattle.table.specs.Holds.{Holds};
ghost use Rattle.table.specs.Promises.{Whenever};
ghost use Rattle.lent.specs.Lent.{node_of};
ghost use Rattle.frames.specs.Pieces.{Writes};
ghost use Rattle.frames.specs.Answers as Answers;
ghost use Rattle.frames.specs.Answers.{Shows, answer_line, variable_row, variable_rows, node_row, tree_rows, record_row, record_rows, hex_byte, hex_bytes};

use monitor::Outcome;
use print::answer::Answer;
use print::preorder::Visit;
use print::{Out, answer, preorder};
use rules::numbers::bits;
use table::node;

// One more than a table may have, so that check 10 can be seen to fail.
pub const PLACES: usize = 513;

pub const WORDS: usize = table::CELL * PLACES;

// The four numbers of an answer.
pub fn put_answer(out: &mut Out, a: Answer)
    ensures { Writes (answer_line a.ending a.index a.steps a.lines) out.old out.new }
{
    out.item(b"ending ", u64::from(a.ending));
    out.item(b" index ", a.index as u64);
    out.item(b" steps ", u64::from(a.steps));
    out.item(b" lines ", a.lines as u64);
    out.byte(b'\n');
}

fn put_variable(out: &mut Out, level: u8, value: i32)
    ensures { Writes (variable_row level value ∷ []) out.old out.new }
{
    out.row(b"variable", &[u32::from(level), bits(value)], 1);
}

// The first n variables, a line for each.
pub fn put_variables(out: &mut Out, n: usize, levels: &[u8], values: &[i32])
    requires { (n ≤ length levels.now) × (n ≤ length values.now) }
    ensures { Writes (variable_rows n levels.now values.now) out.old out.new }
{
    for i in 0..n {
        put_variable(out, levels[i], values[i]);
    }
}

fn put_node(out: &mut Out, words: &[u32], places: usize, v: Visit)
    requires { Within words.now places v.place × (v.depth ≤ 512) }
    ensures { Whenever (cells words.now) places v.place (λ t p. Writes (node_row v.depth (label (sub p t)) ∷ []) out.old out.new) }
{
    let at = v.place;
    let numbers = [
        v.depth as u32,
        u32::from(node::existence(words, places, at)),
        u32::from(node::content(words, places, at)),
        u32::from(node::structure(words, places, at)),
        node::value(words, places, at),
    ];
    out.row(b"node", &numbers, 4);
}

// The tree in a table of places, a line for each node in preorder.
fn put_tree(out: &mut Out, words: &[u32], places: usize)
    requires { Within words.now places 0 }
    ensures { (used free x : ℕ) (t : Forest) (p : Place) → Holds (cells words.now) places used free x t p → Writes (tree_rows 0 t) out.old out.new }
{
    let mut v = preorder::first();
    for k in 0..places {
        put_node(out, words, places, v);
        let Some(next) = preorder::next(words, places, v) else {
            return;
        };
        v = next;
    }
}

// The tree of a run that was lent so many places.
fn put_lent_tree(out: &mut Out, words: &[u32], places: usize)
    requires { 5120 ≤ length words.now }
    ensures { (used free x : ℕ) (t : Forest) (p : Place) → Holds (cells words.now) places used free x t p → Writes (tree_rows 0 t) out.old out.new }
{
    if places < 1 {
        return;
    }
    if places > 512 {
        return;
    }
    put_tree(out, words, places);
}

// What became of a run: n variables, places of a table and an area for lines were lent to it. The words are at least those of the largest table.
pub fn put_run(
    out: &mut Out,
    o: Outcome,
    n: usize,
    places: usize,
    words: &[u32],
    levels: &[u8],
    values: &[i32],
    lines: &[u8],
)
    requires { (5120 ≤ length words.now) × (n ≤ length levels.now) × (n ≤ length values.now) }
    ensures { Shows o n places words.now levels.now values.now lines.now out.old out.new }
{
    let a = answer::of(o);
    put_answer(out, a);
    if !answer::was_run(o) {
        return;
    }
    out.lines(b"line ", lines, a.lines);
    put_variables(out, n, levels, values);
    put_lent_tree(out, words, places);
}

// The same with a table of its own, which has as many words as any: of the words nothing is required.
pub fn put(
    out: &mut Out,
    o: Outcome,
    n: usize,
    places: usize,
    words: &[u32; WORDS],
    levels: &[u8],
    values: &[i32],
    lines: &[u8],
)
    requires { (n ≤ length levels.now) × (n ≤ length values.now) }
    ensures { Shows o n places words.now levels.now values.now lines.now out.old out.new }
{
    put_run(out, o, n, places, words, levels, values, lines);
}

fn put_record(out: &mut Out, words: &[u32; WORDS], place: usize)
    requires { place < 513 }
    ensures { Writes (record_row place (node_of (cells words.now place)) ∷ []) out.old out.new }
{
    let d = lent::node::node_of(words, place);
    let numbers = [
        place as u32,
        d.first,
        d.right,
        d.parent,
        d.children,
        bits(d.value),
        u32::from(d.existence),
        u32::from(d.content),
        u32::from(d.structure),
        d.left,
        d.last,
    ];
    out.row(b"record", &numbers, 5);
}

// The first records as they would be lent, as many as places are asked for and there are.
pub fn put_records(out: &mut Out, words: &[u32; WORDS], places: usize)
    ensures { Writes (record_rows words.now (min places 513)) out.old out.new }
{
    for x in 0..places.min(PLACES) {
        put_record(out, words, x);
    }
}

// A digit of hexadecimal: the library's formatter writes to no output of this kind.
fn digit(n: u8) -> u8
    requires { n < 16 }
    ensures { result ≡ Answers.digit n }
{
    if n < 10 { b'0' + n } else { b'a' + (n - 10) }
}

fn put_byte(out: &mut Out, b: u8)
    ensures { Writes (hex_byte b ∷ []) out.old out.new }
{
    out.byte(digit(b / 16));
    out.byte(digit(b % 16));
}

// Bytes in hexadecimal.
pub fn put_hex(out: &mut Out, bytes: &[u8])
    ensures { Writes (hex_bytes bytes.now) out.old out.new }
{
    for b in bytes {
        put_byte(out, *b);
    }
}
