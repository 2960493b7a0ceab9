// Levels: sets of eight parties, one to a binary digit. Everything else uses a level only through these names.
ghost use Rattle.std.specs.Prelude.{◌≡◌};
ghost use Rattle.rules.specs.Level.{is_level, join, not_above, parties};

// The level of what everybody may know: the empty set.
pub const PUBLIC: u8 = 0;

// The first party.
pub const SECRET: u8 = 1;

// All eight parties.
pub const ALL: u8 = 255;

// Every byte is a level, so that the checks 4 and 6 never fail by it.
pub fn is_level(a: u8) -> bool
    ensures { result ≡ is_level a }
{
    a <= ALL
}

// The union of two sets.
pub fn join(a: u8, b: u8) -> u8
    ensures { result ≡ join a b }
{
    a | b
}

// Whether a set is contained in another: none of its parties is outside.
pub fn not_above(a: u8, b: u8) -> bool
    ensures { result ≡ not_above a b }
{
    (a & !b) == 0
}

// How many parties a set holds.
pub fn parties(a: u8) -> u32
    ensures { result ≡ parties a }
{
    a.count_ones()
}
