// Where a byte of a job stands, and whether it is read: by its section, and in the script by the command's row, the operator and the kinds.
ghost use Rattle.std.specs.Prelude.{◌≡◌, true, false, ◌+◌, ◌-◌, ◌/◌, ◌%◌, ◌<◌, ◌≤◌, length, get_or};
ghost use Rattle.rules.specs.Limits.{record_size};
ghost use Rattle.rules.specs.Bytes.{byte, record_place};
ghost use Rattle.rules.specs.Script.{row_of};
ghost use Rattle.rules.specs.Check.{has_number, reads_right, record_reads};
ghost use Rattle.rules.specs.Clean.{spot_in, spot_of, is_read, clean_byte, is_dirty};
ghost use Rattle.fields.specs.Fields.{row_held};
ghost use Rattle.cleaner.specs.Cleaner.{number_of, spot_held, Laid};

use fields::reads::byte_at;
use fields::records::ALONE;
use fields::rows::{Row, row_of};
use fields::sections::Layout;
use rules::limits::{COMMANDS, NODE_SIZE, RECORD_SIZE, TRAILER_SIZE, VARIABLE_SIZE};

// The sections, in file order: as numbers, 0 to 3.
#[derive(Clone, Copy, Debug, PartialEq, Eq)]
pub enum Section {
    Variables,
    Nodes,
    Script,
    Trailer,
}

// A byte by its section, its record and its place there.
#[derive(Clone, Copy, Debug, PartialEq, Eq)]
pub struct Spot {
    pub section: Section,
    pub index: usize,
    pub byte: usize,
}

fn spot_in(section: Section, base: usize, size: usize, at: usize) -> Spot
    requires { (base ≤ at) × (0 < size) }
    ensures { result ≡ spot_held (spot_in (number_of section) base size at) }
{
    Spot {
        section,
        index: (at - base) / size,
        byte: (at - base) % size,
    }
}

pub fn spot_of(job: &[u8], l: Layout, at: usize) -> Spot
    requires { Laid job.now l }
    ensures { result ≡ spot_held (spot_of job.now at) }
{
    let trailer = job.len() - TRAILER_SIZE;
    if at < l.tree {
        return spot_in(Section::Variables, 0, VARIABLE_SIZE, at);
    }
    if at < l.script {
        return spot_in(Section::Nodes, l.tree, NODE_SIZE, at);
    }
    if at < trailer {
        return spot_in(Section::Script, l.script, RECORD_SIZE, at);
    }
    spot_in(Section::Trailer, trailer, TRAILER_SIZE, at)
}

// Which bytes of a variable are read, from the first on.
const VARIABLE_READS: [bool; VARIABLE_SIZE] = [true, false, false, false, true, true, true, true];

// Which bytes of a node.
const NODE_READS: [bool; NODE_SIZE] = [
    true, true, true, true, true, false, false, false, true, true, true, true,
];

// The row of a number; one that is no command reads nothing.
fn row_at(command: usize) -> Row
    ensures { result ≡ row_held (row_of command) }
{
    if command < COMMANDS {
        return row_of(command);
    }
    Row {
        target: false,
        mark: false,
        expression: false,
        readers: false,
        fifth: false,
        sixth: false,
    }
}

// A constant and a variable have a number.
fn has_number(kind: u8) -> bool
    ensures { result ≡ has_number kind }
{
    kind < 2
}

// Whether the record at a place reads its right side.
fn reads_right(job: &[u8], at: usize, reads: Row) -> bool
    requires { (at + record_size ≤ length job.now) × (reads ≡ row_held (row_of (byte job.now at))) }
    ensures { result ≡ reads_right job.now at }
{
    reads.expression & (job[at + 2] != ALONE)
}

// Which bytes the record at a place reads, one truth for each as the format has them; to the cleaner it holds no sets.
fn record_reads(job: &[u8], at: usize) -> [bool; RECORD_SIZE]
    requires { at + record_size ≤ length job.now }
    ensures { result ≡ record_reads job.now at false }
{
    let reads = row_at(byte_at(job, at));
    let target = reads.target | reads.mark;
    let expression = reads.expression;
    let right = reads_right(job, at, reads);
    let left_number = expression & has_number(job[at + 3]);
    let right_number = right & has_number(job[at + 4]);
    [
        true,
        target,
        expression,
        expression,
        right,
        false,
        false,
        false,
        left_number,
        left_number,
        left_number,
        left_number,
        right_number,
        right_number,
        right_number,
        right_number,
    ]
}

// Whether the byte at a place of the script is read.
fn script_reads(job: &[u8], script: usize, at: usize) -> bool
    requires { (script ≤ at) × (record_place script ((at - script) / record_size) + record_size ≤ length job.now) }
    ensures { result ≡ get_or (record_reads job.now (record_place script ((at - script) / record_size)) false) ((at - script) % record_size) true }
{
    let reads = record_reads(job, script + RECORD_SIZE * ((at - script) / RECORD_SIZE));
    reads[(at - script) % RECORD_SIZE]
}

// Whether the byte at a place is read.
pub fn is_read(job: &[u8], l: Layout, at: usize) -> bool
    requires { Laid job.now l }
    ensures { result ≡ is_read job.now at }
{
    if at < l.tree {
        return VARIABLE_READS[at % VARIABLE_SIZE];
    }
    if at < l.script {
        return NODE_READS[(at - l.tree) % NODE_SIZE];
    }
    if at < job.len() - TRAILER_SIZE {
        return script_reads(job, l.script, at);
    }
    true
}

// Whether it is to be changed.
pub fn is_dirty(job: &[u8], l: Layout, at: usize) -> bool
    requires { Laid job.now l × (at < length job.now) }
    ensures { result ≡ is_dirty job.now at }
{
    if job[at] == 0 {
        return false;
    }
    !is_read(job, l, at)
}

// What the cleaner leaves of it.
pub fn clean_byte(job: &[u8], l: Layout, at: usize) -> u8
    requires { Laid job.now l × (at < length job.now) }
    ensures { result ≡ clean_byte job.now at }
{
    if is_read(job, l, at) {
        return job[at];
    }
    0
}
