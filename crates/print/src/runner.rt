// What the board runner lends a job, and the house's inspection of one.
ghost use Rattle.std.specs.Prelude.{◌≡◌, ◌≤◌};
ghost use Rattle.print.specs.Answers.{variables_in};

pub const BUDGET: u64 = 100000;

pub const PLACES: usize = 512;

pub const WORDS: usize = table::CELL * PLACES;

pub const VARIABLES: usize = 64;

// Five bytes for each of 256 lines.
pub const AREA: usize = 1280;

// How many variables a job has that the checks accept.
pub fn variables_of(job: &[u8]) -> usize
    ensures { (result ≤ 64) × (result ≡ variables_in job.now) }
{
    match job::check(job) {
        Ok(l) => l.variables,
        Err(_) => 0,
    }
}
