// The nesting of blocks: check 8, and in the same pass the plan of the script. A block has one part, or two with an else between them: an if, an
// else and a while begin a part, an else and an end close one; an if that comes back counts as an if. Over the open parts "second else" and
// "innermost open block is no if" are one test.
ghost use Rattle.std.specs.Prelude.{◌≡◌, ◌+◌, ◌-◌, ◌≤◌, ◌<◌, length, get_or, set};
ghost use Rattle.rules.specs.Limits.{max_records, record_size};
ghost use Rattle.rules.specs.Bytes.{record_place};
ghost use Rattle.rules.specs.Blocks as Blocks;
ghost use Rattle.rules.specs.Check.{code};
ghost use Rattle.job.specs.Plan.{entry, end_code};
ghost use Rattle.job.specs.Parts.{placed_at, Stands, Fits, end_stored, Advanced, Scanned};

use crate::plan::{END_BACK, END_MARK};
use fields::records::{BACK, ELSE, END, IF, WHILE, code_at};
use rules::limits::MAX_DEPTH;

// Of the open parts, each as the record that began it, the innermost.
pub fn innermost(begun: &[u16], depth: usize) -> usize
    requires { (depth ≡ 0 → ⊥) × (depth ≤ length begun.now) }
    ensures { result ≡ get_or begun.now (depth - 1) 0 }
{
    usize::from(begun[depth - 1])
}

// An if, or an if that comes back.
fn branches(command: u8) -> bool
    ensures { result ≡ Blocks.branches command }
{
    (command == IF) | (command == BACK)
}

// Check 8, of record i among the parts that are open at it.
pub fn block_ok(job: &[u8], base: usize, begun: &[u16], depth: usize, i: usize) -> bool
    requires { Stands job.now base begun.now depth i }
    ensures { result ≡ placed_at job.now base i }
{
    match code_at(job, base, i) {
        IF | WHILE | BACK => depth < MAX_DEPTH,
        ELSE => {
            if depth == 0 {
                return false;
            }
            branches(code_at(job, base, innermost(begun, depth)))
        }
        END => 0 < depth,
        _ => true,
    }
}

// The word of a record: its command, and where it goes if not to the next.
fn word(command: u8, next: usize) -> u32
    requires { next ≤ max_records }
    ensures { result ≡ entry command next }
{
    u32::from(command) + 65536 * (next as u32)
}

// The words of record i and of record o, whose part it closes.
fn close(plan: &mut [u32], i: usize, own: u32, o: usize, its: u32)
    requires { (i < length plan.old) × (o < length plan.old) }
    ensures { plan.new ≡ set (set plan.old i own) o its }
{
    plan[i] = own;
    plan[o] = its;
}

// The command of an end in the plan, by the command that opened its block: that of an if that comes back has one of its own.
fn end_of(opener: u8) -> u8
    ensures { result ≡ end_code opener }
{
    if opener == BACK { END_BACK } else { END }
}

// The words of the end i of the block that record b opened, and of record o, whose part it closes: back to a while, or on.
fn end_part(job: &[u8], base: usize, o: usize, b: usize, i: usize, plan: &mut [u32])
    requires { (record_place base o + record_size ≤ length job.now) × (record_place base b + record_size ≤ length job.now) × (o < i) × (i < max_records)
        × (i < length plan.old) }
    ensures { plan.new ≡ end_stored (code job.now base) i o b plan.old }
{
    let end = end_of(code_at(job, base, b));
    let beginner = code_at(job, base, o);
    if beginner == WHILE {
        close(plan, i, word(end, o), o, word(WHILE, i + 1));
    } else {
        close(plan, i, word(end, i + 1), o, word(beginner, i));
    }
}

// Record i, which passes check 8: its word in the plan and that of the part which it closes, and the parts and blocks that are open after it, as their number,
// in `begun` the records that began the parts, and in `opened` those that opened the blocks.
pub fn advance(
    job: &[u8],
    base: usize,
    begun: &mut [u16],
    opened: &mut [u16],
    depth: usize,
    i: usize,
    plan: &mut [u32],
) -> usize
    requires { Fits job.now base begun.old opened.old depth i × (i < length plan.old) }
    ensures { Advanced (code job.now base) i plan.old plan.new begun.new opened.new result }
{
    let command = code_at(job, base, i);
    match command {
        IF | WHILE | BACK => {
            plan[i] = word(command, i + 1);
            begun[depth] = i as u16;
            opened[depth] = i as u16;
            depth + 1
        }
        ELSE => {
            let o = innermost(begun, depth);
            close(
                plan,
                i,
                word(ELSE, i + 1),
                o,
                word(code_at(job, base, o), i + 1),
            );
            begun[depth - 1] = i as u16;
            depth
        }
        END => {
            let o = innermost(begun, depth);
            let b = innermost(opened, depth);
            end_part(job, base, o, b, i, plan);
            depth - 1
        }
        _ => {
            plan[i] = word(command, i + 1);
            depth
        }
    }
}

// The first record that breaks check 8, or the count where a block is not closed; where there is none the plan is whole.
pub fn first_fault(job: &[u8], base: usize, count: usize, plan: &mut [u32]) -> Option<usize>
    requires { (record_place base count ≤ length job.now) × (count ≤ max_records) × (count < length plan.old) }
    ensures { Scanned (code job.now base) count plan.old plan.new result }
{
    let mut begun = [0u16; MAX_DEPTH];
    let mut opened = [0u16; MAX_DEPTH];
    let mut depth = 0;
    for i in 0..count {
        if !block_ok(job, base, &begun, depth, i) {
            return Some(i);
        }
        depth = advance(job, base, &mut begun, &mut opened, depth, i, plan);
    }
    if depth == 0 {
        plan[count] = END_MARK;
        None
    } else {
        Some(count)
    }
}
