// Check 12 of the script's records, in one pass with check 7: a record fits where it is right and each byte that it does not read is zero. Which of the two a record fails
// that does not fit is asked only then.
ghost use Rattle.std.specs.Prelude.{◌≡◌, map, ◌+◌, ◌<◌, ◌≤◌, length};
ghost use Rattle.rules.specs.Limits.{command_count, record_size};
ghost use Rattle.rules.specs.Bytes.{byte, full, record_place};
ghost use Rattle.rules.specs.Script.{rows, row_of};
ghost use Rattle.rules.specs.Check.{first_fault};
ghost use Rattle.fields.specs.Fields.{row_used};
ghost use Rattle.fields.specs.Fits.{limits_of, target_limit, operand_fits, kind_word, right_fits, expression_fits, bare_fits, cover_fits, record_fits};

use fields::reads::{byte_at, double_at, full_at, half_at};
use fields::records::{ALONE, MAX_MARK, MAX_OPERATOR};
use fields::rows::{Row, used};
use fields::scan::first_that_fails;
use rules::limits::{COMMANDS, RECORD_SIZE};

// The kinds of an operand.
const KINDS: usize = 4;

// What a target is below that is a reader set, and one that is not read and so is 0.
const ANY_SET: usize = 256;

const UNREAD: usize = 1;

// By its kind, what the number of an operand is below: any constant, a variable's index, and 0 where it is not read.
fn limits_of(variables: usize) -> [u64; KINDS]
    ensures { result ≡ limits_of variables }
{
    [4294967296, variables as u64, 1, 1]
}

// By its command, what the target of a record is below, where records hold sets or do not: a variable's index, a mark, any reader set, and 0 where it is not read.
fn target_limits(variables: usize, sets: bool) -> [usize; COMMANDS]
    ensures { result ≡ map (target_limit sets variables) rows }
{
    let readers = if sets { ANY_SET } else { UNREAD };
    let mark = MAX_MARK + 1;
    [
        UNREAD, // 0
        variables, // 1
        UNREAD, // 2
        UNREAD, // 3
        UNREAD, // 4
        UNREAD, // 5
        readers, // 6
        UNREAD, // 7
        UNREAD, // 8
        UNREAD, // 9
        UNREAD, // 10
        mark, // 11
        mark, // 12
        UNREAD, // 13
        UNREAD, // 14
        UNREAD, // 15
        UNREAD, // 16
        UNREAD, // 17
        UNREAD, // 18
        UNREAD, // 19
    ]
}

// An operand of a kind whose number stands at a place.
fn operand_fits(job: &[u8], kind: usize, at: usize, limits: &[u64; KINDS], variables: usize) -> bool
    requires { (at + 4 ≤ length job.now) × (limits.now ≡ limits_of variables) }
    ensures { result ≡ operand_fits variables kind (full job.now at) }
{
    if KINDS <= kind {
        return false;
    }
    u64::from(full_at(job, at)) < limits[kind]
}

// The bytes 4 to 7 of the record at a place as a number; where 5 and 6 hold sets, without these.
fn kind_word(job: &[u8], at: usize, sets: bool) -> usize
    requires { at + record_size ≤ length job.now }
    ensures { result ≡ kind_word sets job.now at }
{
    if sets {
        return u32::from_le_bytes([job[at + 4], 0, 0, job[at + 7]]) as usize;
    }
    full_at(job, at + 4) as usize
}

// The right side of the expression at a place, by its operator: the bytes 5 to 7 are zero, but for sets, and of an operator with no right side 4 and 12 to 15 too.
fn right_fits(
    job: &[u8],
    at: usize,
    operator: u8,
    sets: bool,
    limits: &[u64; KINDS],
    variables: usize,
) -> bool
    requires { (at + record_size ≤ length job.now) × (limits.now ≡ limits_of variables) }
    ensures { result ≡ right_fits sets job.now variables operator at }
{
    let kind = kind_word(job, at, sets);
    if operator == ALONE {
        if kind != 0 {
            return false;
        }
        return full_at(job, at + 12) == 0;
    }
    operand_fits(job, kind, at + 12, limits, variables)
}

fn expression_fits(
    job: &[u8],
    at: usize,
    sets: bool,
    limits: &[u64; KINDS],
    variables: usize,
) -> bool
    requires { (at + record_size ≤ length job.now) × (limits.now ≡ limits_of variables) }
    ensures { result ≡ expression_fits sets job.now variables at }
{
    let operator = job[at + 2];
    if MAX_OPERATOR < operator {
        return false;
    }
    if !operand_fits(job, byte_at(job, at + 3), at + 8, limits, variables) {
        return false;
    }
    right_fits(job, at, operator, sets, limits, variables)
}

// A record that reads its command only: all other bytes are zero.
fn bare_fits(job: &[u8], at: usize) -> bool
    requires { at + record_size ≤ length job.now }
    ensures { result ≡ bare_fits job.now at }
{
    if 255 < double_at(job, at) {
        return false;
    }
    double_at(job, at + 8) == 0
}

// A cover: all bytes but its command and its set are zero.
fn cover_fits(job: &[u8], at: usize) -> bool
    requires { at + record_size ≤ length job.now }
    ensures { result ≡ cover_fits job.now at }
{
    (full_at(job, at) < 256)
        & (byte_at(job, at + 4) == 0)
        & (half_at(job, at + 6) == 0)
        & (double_at(job, at + 8) == 0)
}

// The fields of the record at a place, by the row of its command and what its target is below.
fn fields_fit(
    job: &[u8],
    at: usize,
    reads: Row,
    limit: usize,
    sets: bool,
    limits: &[u64; KINDS],
    variables: usize,
) -> bool
    requires { (at + record_size ≤ length job.now) × (byte job.now at < command_count) × (reads ≡ row_used sets (row_of (byte job.now at)))
        × (limit ≡ target_limit sets variables (row_of (byte job.now at))) × (limits.now ≡ limits_of variables) }
    ensures { result ≡ record_fits sets job.now variables at }
{
    if reads.expression {
        if limit <= byte_at(job, at + 1) {
            return false;
        }
        return expression_fits(job, at, reads.fifth, limits, variables);
    }
    if reads.fifth {
        return cover_fits(job, at);
    }
    bare_fits(job, at)
}

// The checks 7 and 12, of the record at a place, by the row of each command and what its target is below.
fn record_fits(
    job: &[u8],
    at: usize,
    reads: &[Row; COMMANDS],
    targets: &[usize; COMMANDS],
    sets: bool,
    limits: &[u64; KINDS],
    variables: usize,
) -> bool
    requires inside { at + record_size ≤ length job.now }
    requires table { reads.now ≡ map (row_used sets) rows }
    requires below { (targets.now ≡ map (target_limit sets variables) rows) × (limits.now ≡ limits_of variables) }
    ensures { result ≡ record_fits sets job.now variables at }
{
    let command = byte_at(job, at);
    command < COMMANDS
        && fields_fit(
            job,
            at,
            reads[command],
            targets[command],
            sets,
            limits,
            variables,
        )
}

// The checks 7 and 12, where records hold sets or do not: the first of `count` records that fails one of them, or the count. No option, as in the search that it is: the
// definition counts in this way, and the contract is one equation with it.
pub fn first_unfit(job: &[u8], base: usize, count: usize, variables: usize, sets: bool) -> usize
    requires { record_place base count ≤ length job.now }
    ensures { result ≡ first_fault (λ i. record_fits sets job.now variables (record_place base i)) count 0 }
{
    let reads = used(sets);
    let targets = target_limits(variables, sets);
    let limits = limits_of(variables);
    first_that_fails(count, |i| {
        record_fits(
            job,
            base + RECORD_SIZE * i,
            &reads,
            &targets,
            sets,
            &limits,
            variables,
        )
    })
}
