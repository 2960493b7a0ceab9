// What a script works on, but for what stands in the lent slices.
ghost use Rattle.std.specs.Prelude.{◌≡◌};
ghost use Rattle.rules.specs.Level as Level;
ghost use Rattle.actions.specs.Shows.{level_in};

use rules::levels::join;

// The cursor's place and level, how many lines there are, and what leads to the table's free places. Every field is a whole word: a record with gaps
// goes through memory at every step.
#[derive(Clone, Copy, Debug, PartialEq, Eq)]
pub struct Memory {
    pub cursor: usize,
    pub level: u64,
    pub lines: usize,
    pub free: usize,
    pub used: usize,
}

// The cursor's level, from its word.
pub(crate) fn level_of(m: Memory) -> u8
    ensures { result ≡ level_in m }
{
    (m.level % 256) as u8
}

// Whether a script may touch a node is decided by C, "context joined with cursor level".
pub(crate) fn position(pc: u8, m: Memory) -> u8
    ensures { result ≡ Level.join pc (level_in m) }
{
    join(pc, level_of(m))
}

// L, "E joined with C".
pub(crate) fn flow(e: u8, pc: u8, m: Memory) -> u8
    ensures { result ≡ Level.join e (Level.join pc (level_in m)) }
{
    join(e, position(pc, m))
}
