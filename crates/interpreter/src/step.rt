// The record that comes next, carried out.
ghost use Rattle.std.specs.Prelude.{◌≡◌, ◌+◌, ◌-◌, ◌%◌, ◌≤◌, ◌<◌, length};
ghost use Rattle.rules.specs.Limits.{record_size};
ghost use Rattle.rules.specs.Bytes.{record_place};
ghost use Rattle.rules.specs.Script.{content_set, list_set, cover_set};
ghost use Rattle.table.specs.Cells.{side_of, word_on};
ghost use Rattle.fields.specs.Fields.{fields_of, expression_from};
ghost use Rattle.actions.specs.Shows.{slices, Readable, Reads};
ghost use Rattle.actions.specs.Acts.{Evaluates};
ghost use Rattle.interpreter.specs.Steps.{held, Script, Safe, Carries};

use actions::control::{
    FINISHED, Running, Stepped, come_back, enter_back, enter_if, enter_while, halt, jump, leave,
    onward,
};
use actions::evaluate::{Valued, evaluate};
use actions::memory::Memory;
use actions::sets::{content_set, cover_set, list_set};
use actions::{guards, moves, nodes, variables};
use fields::records::fields_at;
use job::plan::{END_BACK, code, next};
use table::Side;

// Where the script starts in the job's bytes and how many records it has, how many variables there are, and how many places.
#[derive(Clone, Copy, Debug, PartialEq, Eq)]
pub struct Frame {
    pub script: usize,
    pub records: usize,
    pub vars: usize,
    pub places: usize,
}

// What the expression of record i comes to, and its level. It stands in each arm that has one: one code for the seven makes an insertion slower.
#[inline(always)]
fn value_at(
    job: &[u8],
    f: Frame,
    i: usize,
    levels: &[u8],
    values: &[i32],
    words: &[u32],
    m: Memory,
) -> Valued
    requires { (record_place f.script i + record_size ≤ length job.now)
        × (Readable words.now levels.now values.now f.places f.vars m × Reads f.vars (fields_of job.now (record_place f.script i))) }
    ensures { Evaluates words.now levels.now values.now f.places f.vars m (expression_from (fields_of job.now (record_place f.script i))) result }
{
    evaluate(
        fields_at(job, f.script, i),
        levels,
        values,
        f.vars,
        words,
        f.places,
        m,
    )
}

// The target of record i, or its mark, or its readers.
fn target(job: &[u8], base: usize, i: usize) -> u8
    requires { record_place base i + record_size ≤ length job.now }
    ensures { result ≡ (fields_of job.now (record_place base i)).target }
{
    let f = fields_at(job, base, i);
    f.target
}

// What the content of a new node joins, by record i. What is read here of a record again is read once after inlining.
fn content_at(job: &[u8], base: usize, i: usize) -> u8
    requires { record_place base i + record_size ≤ length job.now }
    ensures { result ≡ content_set (fields_of job.now (record_place base i)).target ((fields_of job.now (record_place base i)).fifth % 256) }
{
    let f = fields_at(job, base, i);
    content_set(f.target, f.fifth)
}

// What its list joins.
fn list_at(job: &[u8], base: usize, i: usize) -> u8
    requires { (record_place base i + record_size ≤ length job.now) × ((fields_of job.now (record_place base i)).target ≤ 3) }
    ensures { result ≡ list_set (fields_of job.now (record_place base i)).target ((fields_of job.now (record_place base i)).sixth % 256) }
{
    let f = fields_at(job, base, i);
    list_set(f.target, f.sixth)
}

// What a cover joins, by record i.
fn cover_at(job: &[u8], base: usize, i: usize) -> u8
    requires { record_place base i + record_size ≤ length job.now }
    ensures { result ≡ cover_set ((fields_of job.now (record_place base i)).fifth % 256) }
{
    let f = fields_at(job, base, i);
    cover_set(f.fifth)
}

// The side of one of two neighbouring commands: the first is on that of the children, the second on that of the right siblings.
fn side(command: u8, first: u8) -> Side
    requires { (first ≤ command) × (command < first + 2) }
    ensures { command ≡ word_on (side_of result) + first }
{
    if command == first {
        Side::First
    } else {
        Side::Right
    }
}

// What the plan says of the record that comes next, done; the mark behind the last record is the match's rest.
pub fn carry_out(
    job: &[u8],
    plan: &[u32],
    levels: &[u8],
    f: Frame,
    words: &mut [u32],
    values: &mut [i32],
    lines: &mut [u8],
    marks: &mut [u16],
    r: Running,
) -> Stepped
    requires { Script (held job.now plan.now f)
        × (Safe (held job.now plan.now f) (slices words.old levels.now values.old lines.old) marks.old r
        × (0 < r.left)) }
    ensures { Carries (held job.now plan.now f)
        (slices words.old levels.now values.old lines.old)
        (slices words.new levels.now values.new lines.new) marks.old marks.new r result }
{
    let at = r.at;
    let base = f.script;
    let places = f.places;
    let m = r.memory;
    let pc = guards::top(r.guards);
    let word = plan[at];
    let command = code(word);
    match command {
        0 => onward(r, m),
        1 => variables::assign(
            value_at(job, f, at, levels, values, words, m),
            target(job, base, at),
            levels,
            values,
            pc,
            r,
        ),
        2 => enter_if(
            r,
            value_at(job, f, at, levels, values, words, m),
            next(word),
        ),
        3 => jump(r, next(word)),
        4 => enter_while(
            r,
            value_at(job, f, at, levels, values, words, m),
            next(word),
        ),
        5 => leave(r, next(word)),
        6 => variables::output(
            value_at(job, f, at, levels, values, words, m),
            target(job, base, at),
            lines,
            pc,
            r,
        ),
        7..=10 => moves::go(command, words, places, pc, r),
        11..=12 => nodes::insert_on(
            value_at(job, f, at, levels, values, words, m),
            content_at(job, base, at),
            list_at(job, base, at),
            side(command, 11),
            words,
            places,
            pc,
            r,
        ),
        13..=14 => nodes::remove(side(command, 13), words, places, pc, r, marks),
        15 => nodes::write(
            value_at(job, f, at, levels, values, words, m),
            words,
            places,
            pc,
            r,
        ),
        16 => moves::raise(cover_at(job, base, at), places, pc, r),
        17 => enter_back(
            r,
            value_at(job, f, at, levels, values, words, m),
            next(word),
            places,
            marks,
        ),
        18 => moves::go_left(words, places, pc, r),
        19 => moves::go_last(words, places, pc, r),
        END_BACK => come_back(r, next(word), places, marks),
        _ => halt(r, FINISHED),
    }
}
