// The variables, 8 bytes each: the checks 4 and 12, and the fields.
ghost use Rattle.std.specs.Prelude.{◌≡◌, ◌&&◌, ◌+◌, ◌≤◌, length};
ghost use Rattle.rules.specs.Limits.{variable_size};
ghost use Rattle.rules.specs.Bytes.{variable_place};
ghost use Rattle.rules.specs.Check.{variable_clean};
ghost use Rattle.rules.specs.Job.{variable_of};
ghost use Rattle.fields.specs.Fits.{variable_in};

use crate::reads::{rest_at, signed_at};
use rules::limits::VARIABLE_SIZE;

pub fn level_at(job: &[u8], i: usize) -> u8
    requires { variable_place i + variable_size ≤ length job.now }
    ensures { result ≡ (variable_of job.now (variable_place i)).level }
{
    job[VARIABLE_SIZE * i]
}

pub fn value_at(job: &[u8], i: usize) -> i32
    requires { variable_place i + variable_size ≤ length job.now }
    ensures { result ≡ (variable_of job.now (variable_place i)).value }
{
    signed_at(job, VARIABLE_SIZE * i + 4)
}

// Check 4, of variable i, where `top` is the highest level.
pub fn variable_ok(job: &[u8], i: usize, top: u8) -> bool
    requires { variable_place i + variable_size ≤ length job.now }
    ensures { result ≡ variable_in top job.now i }
{
    level_at(job, i) <= top
}

// And check 12.
pub fn variable_fits(job: &[u8], i: usize, top: u8) -> bool
    requires { variable_place i + variable_size ≤ length job.now }
    ensures { result ≡ (variable_in top job.now i && variable_clean job.now i) }
{
    variable_ok(job, i, top) & (rest_at(job, VARIABLE_SIZE * i) == 0)
}
