// Bytes that are copied from one slice to another.
ghost use Rattle.std.specs.Prelude.{◌+◌, ◌≤◌, length};
ghost use Rattle.arranger.specs.Arranger.{Copied};

// One line, with a name for what its contract says of the bytes around.
pub fn copy(to: &mut [u8], at: usize, from: &[u8], start: usize, n: usize)
    requires { (at + n ≤ length to.old) × (start + n ≤ length from.now) }
    ensures { Copied n to.old at from.now start to.new }
{
    to[at..at + n].copy_from_slice(&from[start..start + n]);
}
