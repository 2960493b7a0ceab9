// The script's records, 16 bytes each from `base` on: check 7, and the fields.
ghost use Rattle.std.specs.Prelude.{◌≡◌, ◌+◌, ◌≤◌, length, map};
ghost use Rattle.rules.specs.Limits.{command_count, record_size};
ghost use Rattle.rules.specs.Bytes.{full, record_place};
ghost use Rattle.rules.specs.Script.{row, rows};
ghost use Rattle.rules.specs.Check.{operand_rule, expression_rule, fields_rule, code, first_fault};
ghost use Rattle.fields.specs.Fields.{known_rule, fields_of, row_held};

use crate::reads::{byte_at, full_at};
use crate::rows::{Row, table};
use crate::scan::first_that_fails;
use rules::limits::{COMMANDS, RECORD_SIZE};

// The commands that say which record comes next. No enum: a record's byte may hold any number, and the step goes by ranges of commands.
pub const IF: u8 = 2;

pub const ELSE: u8 = 3;

pub const WHILE: u8 = 4;

pub const END: u8 = 5;

// The if that comes back.
pub const BACK: u8 = 17;

// Operator 0 is the left side alone. The kind of a variable is 1. Numbers for the same reason.
pub const ALONE: u8 = 0;

pub const MAX_OPERATOR: u8 = 5;

pub const VARIABLE: u8 = 1;

pub const MAX_KIND: u8 = 3;

pub const MAX_MARK: usize = 3;

// A record as its bytes have it.
#[derive(Clone, Copy, PartialEq, Eq, Debug)]
pub struct Fields {
    pub command: u8,
    pub target: u8,
    pub operator: u8,
    pub leftkind: u8,
    pub rightkind: u8,
    pub fifth: u8,
    pub sixth: u8,
    pub left: u32,
    pub right: u32,
}

pub fn fields_at(job: &[u8], base: usize, i: usize) -> Fields
    requires { record_place base i + record_size ≤ length job.now }
    ensures { result ≡ fields_of job.now (record_place base i) }
{
    let at = base + RECORD_SIZE * i;
    Fields {
        command: job[at],
        target: job[at + 1],
        operator: job[at + 2],
        leftkind: job[at + 3],
        rightkind: job[at + 4],
        fifth: job[at + 5],
        sixth: job[at + 6],
        left: full_at(job, at + 8),
        right: full_at(job, at + 12),
    }
}

// The command alone.
pub fn code_at(job: &[u8], base: usize, i: usize) -> u8
    requires { record_place base i + record_size ≤ length job.now }
    ensures { result ≡ code job.now base i }
{
    job[base + RECORD_SIZE * i]
}

// An operand of a kind whose number stands at a place.
fn operand_ok(job: &[u8], kind: u8, at: usize, variables: usize) -> bool
    requires { at + 4 ≤ length job.now }
    ensures { result ≡ operand_rule variables kind (full job.now at) }
{
    if kind == VARIABLE {
        // no number of 32 bits is lost, and there is no `From` for it
        (full_at(job, at) as usize) < variables
    } else {
        kind <= MAX_KIND
    }
}

fn expression_ok(job: &[u8], at: usize, variables: usize) -> bool
    requires { at + record_size ≤ length job.now }
    ensures { result ≡ expression_rule job.now variables at }
{
    let operator = job[at + 2];
    if MAX_OPERATOR < operator {
        return false;
    }
    if !operand_ok(job, job[at + 3], at + 8, variables) {
        return false;
    }
    if operator == ALONE {
        return true;
    }
    operand_ok(job, job[at + 4], at + 12, variables)
}

// The fields that a row names, of the record at a place.
fn fields_ok(job: &[u8], at: usize, reads: Row, variables: usize) -> bool
    requires { at + record_size ≤ length job.now }
    ensures { result ≡ fields_rule job.now variables (row reads.target reads.mark reads.expression reads.readers reads.fifth reads.sixth) at }
{
    let target = byte_at(job, at + 1);
    if !(!reads.target | (target < variables)) {
        return false;
    }
    if !(!reads.mark | (target <= MAX_MARK)) {
        return false;
    }
    if reads.expression {
        return expression_ok(job, at, variables);
    }
    true
}

// Check 7, of the record at a place, where there are so many commands, each with its row.
fn record_ok(
    job: &[u8],
    at: usize,
    reads: &[Row; COMMANDS],
    variables: usize,
    commands: usize,
) -> bool
    requires inside { at + record_size ≤ length job.now }
    requires known { commands ≤ command_count }
    requires table { reads.now ≡ map row_held rows }
    ensures { result ≡ known_rule commands job.now variables at }
{
    let command = byte_at(job, at);
    command < commands && fields_ok(job, at, reads[command], variables)
}

// Check 7, where there are so many commands: the first of `count` records that fails it, or the count.
pub fn first_fault(
    job: &[u8],
    base: usize,
    count: usize,
    variables: usize,
    commands: usize,
) -> usize
    requires { (record_place base count ≤ length job.now) × (commands ≤ command_count) }
    ensures { result ≡ first_fault (λ i. known_rule commands job.now variables (record_place base i)) count 0 }
{
    let rows = table();
    first_that_fails(count, |i| {
        record_ok(job, base + RECORD_SIZE * i, &rows, variables, commands)
    })
}
