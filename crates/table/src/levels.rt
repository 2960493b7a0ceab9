// A level is a byte; in a cell it has a word of its own.
ghost use Rattle.std.specs.Prelude.{◌≡◌, ◌%◌};

// A word as a level: its low 8 bits, taken by a remainder, since a cast may lose no bits.
pub fn low(x: u32) -> u8
    ensures { result ≡ x % 256 }
{
    (x % 256) as u8
}
