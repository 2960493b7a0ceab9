// Slices of eight parts, one for each place.
ghost use Rattle.std.specs.Prelude.{◌≡◌, ◌*◌, ◌<◌, ◌≤◌, length};
ghost use Rattle.rules.specs.Limits.{max_bytes, max_runs};
ghost use Rattle.places.specs.Pieces.{plan_size, Filled};

use job::plan;
use rules::limits::MAX_BYTES;

// A newcomer's job and its plan, into the parts of a place.
pub fn keep(i: usize, job: &[u8], script: &[u32; plan::WORDS], jobs: &mut [u8], plans: &mut [u32])
    requires { (i < max_runs) × (length job.now ≤ max_bytes) × (length jobs.old ≡ max_bytes * max_runs) × (length plans.old ≡ plan_size * max_runs) }
    ensures { Filled max_bytes i job.now jobs.old jobs.new
        × Filled plan_size i script.now plans.old plans.new × (length script.now ≡ plan_size) }
{
    let a = MAX_BYTES * i;
    jobs[a..a + job.len()].copy_from_slice(job);
    let s = plan::WORDS * i;
    plans[s..s + plan::WORDS].copy_from_slice(script);
}
