// The open blocks: for each the context in it, which is the join of its guard and of all around it, so the innermost one is the context of the run.
// Sixteen levels of eight bits are two words, used as a shift register: an array in a record by value would be copied at every step.
ghost use Rattle.std.specs.Prelude.{◌≡◌, ◌<◌, length};
ghost use mathlib.Core.List.{List, [], ◌∷◌, tail};
ghost use Rattle.rules.specs.Limits.{max_depth};
ghost use Rattle.rules.specs.Run.{Block, context};
ghost use Rattle.actions.specs.Guards.{Holds};

#[derive(Clone, Copy, Debug, PartialEq, Eq)]
pub struct Guards {
    pub low: u64,
    pub high: u64,
}

// Two to the power 56: a word without its highest byte is below it.
const REST: u64 = 72057594037927936;

// The context of a run with no open block is public.
pub fn none() -> Guards
    ensures { Holds result [] }
{
    Guards { low: 0, high: 0 }
}

// The context.
pub fn top(g: Guards) -> u8
    ensures { (bs : List Block) → Holds g bs → result ≡ context bs }
{
    (g.low % 256) as u8
}

// One block more, with a context in it.
pub(crate) fn push(g: Guards, inner: u8) -> Guards
    ensures { (b : Block) (bs : List Block) → Holds g bs → length bs < max_depth → inner ≡ context (b ∷ bs) → Holds result (b ∷ bs) }
{
    Guards {
        low: g.low % REST * 256 + u64::from(inner),
        high: g.high % REST * 256 + g.low / REST,
    }
}

// One block less.
pub(crate) fn pop(g: Guards) -> Guards
    ensures { (bs : List Block) → Holds g bs → Holds result (tail bs) }
{
    Guards {
        low: g.low / 256 + g.high % 256 * REST,
        high: g.high / 256,
    }
}
