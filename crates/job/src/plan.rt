// The plan of a script, for a run: a word for each record, and the end mark behind the last, so that a run need not count records.
// A word packs a command and a place, since a step of a run reads both with one load.
ghost use Rattle.std.specs.Prelude.{◌≡◌};
ghost use Rattle.job.specs.Plan.{code_of, next_of};

// A word for each record that there may be, and one for the end mark.
pub const WORDS: usize = 1025;

// No command, nor one that a request adds. A number as these are, since a step of a run decides by it.
pub const END_MARK: u32 = 255;

// The end of an if that comes back, which may stop: no command either.
pub const END_BACK: u8 = 254;

// The command that a word holds, or END_BACK, or the end mark.
pub fn code(word: u32) -> u8
    ensures { result ≡ code_of word }
{
    (word % 256) as u8
}

// Where its record goes if not to the next.
pub fn next(word: u32) -> usize
    ensures { result ≡ next_of word }
{
    (word / 65536) as usize
}
