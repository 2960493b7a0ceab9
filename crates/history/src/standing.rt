// What stands from one event to the next: a tree and variables.
ghost use Rattle.std.specs.Prelude.{◌≤◌};

use frames::outcome::WORDS;

// 65 places, one more than a job may have variables.
pub const ROOM: usize = 65;

// Five bytes for each of 65,535 lines.
pub const AREA: usize = 327675;

// How many are lent, and the level and the value of each.
#[derive(Clone, Copy)]
pub struct Variables {
    pub count: usize,
    pub levels: [u8; ROOM],
    pub values: [i32; ROOM],
    ghost lent: { count ≤ 65 },
}

// The words of the tree's table, and the variables. The lines of a run are lent beside it: fields of one struct are not lent in one call.
#[derive(Drop)]
pub struct Standing {
    pub words: [u32; WORDS],
    pub variables: Variables,
}

impl Standing {
    // All is 0, and no variable is lent.
    pub fn none() -> Self {
        Standing {
            words: [0; WORDS],
            variables: Variables {
                count: 0,
                levels: [0; ROOM],
                values: [0; ROOM],
            },
        }
    }
}
