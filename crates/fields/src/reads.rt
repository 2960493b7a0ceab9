// Little-endian numbers at a place of a job's bytes.
ghost use Rattle.std.specs.Prelude.{◌≡◌, ◌+◌, ◌<◌, ◌≤◌, length};
ghost use Rattle.rules.specs.Number.{signed};
ghost use Rattle.rules.specs.Bytes.{byte, half, full};
ghost use Rattle.fields.specs.Fields.{rest, double};

// The byte at a place, as a number to count or to index with.
pub fn byte_at(job: &[u8], at: usize) -> usize
    requires { at + 1 ≤ length job.now }
    ensures { (result ≡ byte job.now at) × (result < 256) }
{
    usize::from(job[at])
}

pub fn half_at(job: &[u8], at: usize) -> usize
    requires { at + 2 ≤ length job.now }
    ensures { (result ≡ half job.now at) × (result < 65536) }
{
    usize::from(u16::from_le_bytes([job[at], job[at + 1]]))
}

pub fn full_at(job: &[u8], at: usize) -> u32
    requires { at + 4 ≤ length job.now }
    ensures { result ≡ full job.now at }
{
    u32::from_le_bytes([job[at], job[at + 1], job[at + 2], job[at + 3]])
}

// The three bytes behind the one at a place.
pub(crate) fn rest_at(job: &[u8], at: usize) -> u32
    requires { at + 4 ≤ length job.now }
    ensures { result ≡ rest job.now at }
{
    full_at(job, at) / 256
}

// Eight bytes, as two times four.
pub fn double_at(job: &[u8], at: usize) -> u64
    requires { at + 8 ≤ length job.now }
    ensures { result ≡ double job.now at }
{
    u64::from(full_at(job, at)) + u64::from(full_at(job, at + 4)) * 4294967296
}

pub fn signed_at(job: &[u8], at: usize) -> i32
    requires { at + 4 ≤ length job.now }
    ensures { result ≡ signed (full job.now at) }
{
    rules::numbers::signed(full_at(job, at))
}
