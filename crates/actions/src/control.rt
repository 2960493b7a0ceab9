// Where a run stands between two steps, and what the commands do that say which record comes next: 2 to 5, and 17.
ghost use Rattle.rules.specs.Run.{enter_if, enter_while};
ghost use Rattle.std.specs.Prelude.{◌≡◌, ◌≤◌, ◌<◌, length};
ghost use Rattle.rules.specs.Limits.{max_nodes};
ghost use Rattle.actions.specs.Marks.{marks_size};
ghost use Rattle.actions.specs.Stands.{Timely, stepped, with_memory, went};
ghost use Rattle.actions.specs.Control.{Jumps, Leaves, Enters, Saves, Restores};

use super::evaluate::Valued;
use super::guards::Guards;
use super::memory::{Memory, level_of};
use super::{guards, marks};
use rules::levels::join;
use rules::limits::{ABSENT, OVERFLOW};
use rules::numbers;

// The memory, the open blocks, the record that comes next, and how many steps are left.
#[derive(Clone, Copy, Debug, PartialEq, Eq)]
pub struct Running {
    pub memory: Memory,
    pub guards: Guards,
    pub at: usize,
    pub left: usize,
}

// Stands for the script's end where the number of a stop would stand.
pub const FINISHED: u8 = 255;

// How the run has ended, or 0 where it goes on, and where it stands then.
#[derive(Debug, PartialEq, Eq, Drop)]
pub struct Stepped {
    pub stop: u8,
    pub running: Running,
}

// A stop, where the run stands.
pub fn halt(r: Running, stop: u8) -> Stepped
    ensures { result ≡ stepped stop r }
{
    Stepped { stop, running: r }
}

// The same run with another memory.
pub(crate) fn with_memory(r: Running, m: Memory) -> Running
    ensures { result ≡ with_memory r m }
{
    Running { memory: m, ..r }
}

// After an action: on to the next record, with the memory that it leaves.
pub fn onward(r: Running, m: Memory) -> Stepped
    requires { Timely r }
    ensures { result ≡ went r m }
{
    Stepped {
        stop: 0,
        running: Running {
            memory: m,
            at: r.at + 1,
            left: r.left - 1,
            ..r
        },
    }
}

// Command 3, else: on to the end of its block.
pub fn jump(r: Running, to: usize) -> Stepped
    requires { Timely r }
    ensures { Jumps r to result }
{
    Stepped {
        stop: 0,
        running: Running {
            at: to,
            left: r.left - 1,
            ..r
        },
    }
}

// Command 5, end: one block less, and back to its while or on.
pub fn leave(r: Running, to: usize) -> Stepped
    requires { Timely r }
    ensures { Leaves r to result }
{
    Stepped {
        stop: 0,
        running: Running {
            guards: guards::pop(r.guards),
            at: to,
            left: r.left - 1,
            ..r
        },
    }
}

// Command 2, if: one block more; with a zero guard past its else, or to its end. The three that open a block share calls, and differ in when they push.
pub fn enter_if(r: Running, e: Valued, to: usize) -> Stepped
    requires { Timely r }
    ensures { Enters enter_if r e to result }
{
    let Some(z) = e.value else {
        return halt(r, OVERFLOW);
    };
    let inner = join(e.level, guards::top(r.guards));
    Stepped {
        stop: 0,
        running: Running {
            guards: guards::push(r.guards, inner),
            at: if numbers::is_zero(z) { to } else { r.at + 1 },
            left: r.left - 1,
            ..r
        },
    }
}

// Command 4, while: with a zero guard past its end; else one block more.
pub fn enter_while(r: Running, e: Valued, to: usize) -> Stepped
    requires { Timely r }
    ensures { Enters enter_while r e to result }
{
    let Some(z) = e.value else {
        return halt(r, OVERFLOW);
    };
    if numbers::is_zero(z) {
        return jump(r, to);
    }
    let inner = join(e.level, guards::top(r.guards));
    Stepped {
        stop: 0,
        running: Running {
            guards: guards::push(r.guards, inner),
            at: r.at + 1,
            left: r.left - 1,
            ..r
        },
    }
}

// Command 17, an if that comes back: the cursor's place and level are remembered, and the context, with the guard, joins the level.
pub fn enter_back(r: Running, e: Valued, to: usize, places: usize, marks: &mut [u16]) -> Stepped
    requires { Timely r × ((marks_size ≤ length marks.old) × ((r.memory.cursor < places) × (places ≤ max_nodes))) }
    ensures { Saves places r e to marks.old marks.new result }
{
    let Some(z) = e.value else {
        return halt(r, OVERFLOW);
    };
    let inner = join(e.level, guards::top(r.guards));
    let level = level_of(r.memory);
    marks::save(marks, r.memory.cursor, level);
    Stepped {
        stop: 0,
        running: Running {
            memory: Memory {
                level: u64::from(join(level, inner)),
                ..r.memory
            },
            guards: guards::push(r.guards, inner),
            at: if numbers::is_zero(z) { to } else { r.at + 1 },
            left: r.left - 1,
        },
    }
}

// Command 5 of an if that comes back: one block less, and the cursor is where it was, at its level; 22 where its node was removed meanwhile.
pub fn come_back(r: Running, to: usize, places: usize, marks: &mut [u16]) -> Stepped
    requires { Timely r × ((marks_size ≤ length marks.old) × (places ≤ max_nodes)) }
    ensures { Restores places r to marks.old marks.new result }
{
    let Some(saved) = marks::recall(marks, places) else {
        return halt(r, ABSENT);
    };
    marks::drop(marks);
    Stepped {
        stop: 0,
        running: Running {
            memory: Memory {
                cursor: saved.place,
                level: saved.level,
                ..r.memory
            },
            guards: guards::pop(r.guards),
            at: to,
            left: r.left - 1,
        },
    }
}
