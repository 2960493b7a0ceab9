// What the node at a place shows, and a new value for it.
ghost use Rattle.std.specs.Prelude.{◌≡◌, ℕ, ◌<◌, ◌≤◌};
ghost use Rattle.rules.specs.Number.{signed};
ghost use Rattle.rules.specs.Tree.{Forest, Place, sub, label, count, along, child};
ghost use Rattle.table.specs.Cells.{cells, Within};
ghost use Rattle.table.specs.Holds.{Holds};
ghost use Rattle.table.specs.Promises.{Whenever, Valued, Behind};

use super::cells;

// The value, as its 32 bits.
pub fn value(words: &[u32], places: usize, at: usize) -> u32
    requires { Within words.now places at }
    ensures { Whenever (cells words.now) places at (λ t p. (label (sub p t)).value ≡ signed result) }
{
    cells::get(words, places, at, cells::VALUE)
}

pub fn existence(words: &[u32], places: usize, at: usize) -> u8
    requires { Within words.now places at }
    ensures { Whenever (cells words.now) places at (λ t p. (label (sub p t)).existence ≡ result) }
{
    cells::level(words, places, at, cells::EXISTENCE)
}

pub fn content(words: &[u32], places: usize, at: usize) -> u8
    requires { Within words.now places at }
    ensures { Whenever (cells words.now) places at (λ t p. (label (sub p t)).content ≡ result) }
{
    cells::level(words, places, at, cells::CONTENT)
}

pub fn structure(words: &[u32], places: usize, at: usize) -> u8
    requires { Within words.now places at }
    ensures { Whenever (cells words.now) places at (λ t p. (label (sub p t)).structure ≡ result) }
{
    cells::level(words, places, at, cells::STRUCTURE)
}

// How many children.
pub fn children(words: &[u32], places: usize, at: usize) -> u32
    requires { Within words.now places at }
    ensures { Whenever (cells words.now) places at (λ t p. (count (along child (sub p t)) ≡ result) × (result ≤ places)) }
{
    cells::get(words, places, at, cells::CHILDREN)
}

// What an operand of kind 2 or 3 reads of the node: its value as 32 bits, or how many children it has. Their words lie side by side, as do those of their
// levels, so no branch tells them apart.
pub fn read(words: &[u32], places: usize, at: usize, kind: usize) -> u32
    requires { Within words.now places at × ((1 < kind) × (kind < 4)) }
    ensures { Whenever (cells words.now) places at (λ t p. (kind ≡ 2 → (label (sub p t)).value ≡ signed result)
        × (kind ≡ 3 → (count (along child (sub p t)) ≡ result) × (result ≤ places))) }
{
    cells::get(words, places, at, cells::VALUE - 2 + kind)
}

// The level of that: the content or the structure level.
pub fn level_read(words: &[u32], places: usize, at: usize, kind: usize) -> u8
    requires { Within words.now places at × ((1 < kind) × (kind < 4)) }
    ensures { Whenever (cells words.now) places at (λ t p. (kind ≡ 2 → (label (sub p t)).content ≡ result)
        × (kind ≡ 3 → (label (sub p t)).structure ≡ result)) }
{
    cells::level(words, places, at, cells::CONTENT - 2 + kind)
}

// Sets the value, given as its 32 bits.
pub fn set_value(words: &mut [u32], places: usize, at: usize, v: u32)
    requires { Within words.old places at }
    ensures by_index { (used free : ℕ) (t : Forest) (p : Place) → Holds (cells words.old) places used free at t p
        → Valued (signed v) (cells words.old) (cells words.new) places used free at t p }
    ensures behind { Behind places (cells words.old) (cells words.new) }
{
    cells::store(words, places, at, cells::VALUE, v);
}
