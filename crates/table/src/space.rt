// The free places: a stack of removed forests, linked by the parent word of the first place of each, and then the places that were never used.
ghost use Rattle.std.specs.Prelude.{◌*◌, ◌≤◌, length};
ghost use Rattle.rules.specs.Limits.{max_nodes};
ghost use Rattle.table.specs.Cells.{cell_size, cells, Within};
ghost use Rattle.table.specs.Steps.{Pushed, Popped, Took};

use super::{Taken, cells};

// Puts the forest whose first place is x, if x is a place, onto the stack that `free` leads to; returns what leads to it then.
pub fn push(words: &mut [u32], places: usize, x: u32, free: u32) -> u32
    requires { (cell_size * places ≤ length words.old) × (places ≤ max_nodes) }
    ensures { Pushed (cells words.old) places x free (cells words.new) result }
{
    let at = x as usize;
    if at < places {
        cells::store(words, places, at, cells::PARENT, free);
        return x;
    }
    free
}

// Takes the first place x off the stack, which leaves the forests that hang from it; returns what leads to the stack then.
pub fn pop(words: &mut [u32], places: usize, x: usize) -> usize
    requires { Within words.old places x }
    ensures { Popped (cells words.old) places x (cells words.new) result }
{
    let rest = cells::get(words, places, x, cells::PARENT);
    let right = cells::get(words, places, x, super::RIGHT);
    let first = cells::get(words, places, x, super::FIRST);
    let beside = push(words, places, right, rest);
    push(words, places, first, beside) as usize
}

// Takes the first free place, or else the first place that was never used.
pub fn take(words: &mut [u32], places: usize, used: usize, free: usize) -> Taken
    requires { (cell_size * places ≤ length words.old) × (places ≤ max_nodes) }
    ensures { Took (cells words.old) places used free (cells words.new) result.place result.free result.used }
{
    if free < places {
        let rest = pop(words, places, free);
        return Taken {
            place: free,
            free: rest,
            used: used,
        };
    }
    if used < places {
        return Taken {
            place: used,
            free: free,
            used: used + 1,
        };
    }
    Taken {
        place: super::NIL,
        free: free,
        used: used,
    }
}
