// The cleaning itself, in place.
ghost use Rattle.std.specs.Prelude.{◌≡◌, ◌<◌, length, set};
ghost use Rattle.rules.specs.Check.{accepted, first, check_bytes_by};
ghost use Rattle.rules.specs.Clean.{clean_byte, cleaned, left_clean};
ghost use Rattle.fields.specs.Layout.{layout_of};
ghost use Rattle.job.specs.Answer.{told};
ghost use Rattle.cleaner.specs.Cleaner.{Laid};

use crate::spots::clean_byte;
use fields::sections::Layout;
use job::{Edition, Refusal, check_by};

fn store(job: &mut [u8], at: usize, byte: u8)
    requires { at < length job.old }
    ensures { job.new ≡ set job.old at byte }
{
    job[at] = byte;
}

// Cleans one byte.
fn clean_at(job: &mut [u8], l: Layout, at: usize)
    requires { Laid job.old l × (at < length job.old) }
    ensures { job.new ≡ set job.old at (clean_byte job.old at) }
{
    let byte = clean_byte(job, l, at);
    store(job, at, byte);
}

// Cleans an accepted job, byte by byte: what is read stays, so each byte is asked for in what stands.
fn clean_all(job: &mut [u8], l: Layout)
    requires { (check_bytes_by first job.old ≡ accepted) × (l ≡ layout_of job.old) }
    ensures { job.new ≡ cleaned job.old }
{
    for at in 0..job.len() {
        clean_at(job, l, at);
    }
}

// Cleans a job that the old rules accept; one that they turn back stays as it is.
pub fn clean(job: &mut [u8]) -> Result<(), Refusal>
    ensures value { result ≡ told (check_bytes_by first job.old) }
    ensures job_after { job.new ≡ left_clean job.old }
{
    let l = check_by(job, Edition::First)?;
    clean_all(job, l);
    Ok(())
}
