// Single numbers of what stands, set from outside: what is lent to a script may hold anything.
use super::standing::{ROOM, Standing};
use fields::reads::{full_at, half_at};
use frames::outcome::PLACES;
use lent::{Node, node};
use rules::numbers::signed;
use table::low;

// A field of a record.
#[derive(Clone, Copy)]
enum Field {
    First,
    Right,
    Parent,
    Children,
    Value,
    Existence,
    Content,
    Structure,
    Left,
    Last,
}

// What an entry sets: a field of a record, the level or the value of a variable, or how many variables are lent.
#[derive(Clone, Copy)]
enum What {
    Field(Field),
    Level,
    Value,
    Count,
}

// From 16 on there are fields that were not there at first.
impl What {
    fn of(number: usize) -> Option<Self> {
        match number {
            0 => Some(What::Field(Field::First)),
            1 => Some(What::Field(Field::Right)),
            2 => Some(What::Field(Field::Parent)),
            3 => Some(What::Field(Field::Children)),
            4 => Some(What::Field(Field::Value)),
            5 => Some(What::Field(Field::Existence)),
            6 => Some(What::Field(Field::Content)),
            7 => Some(What::Field(Field::Structure)),
            8 => Some(What::Level),
            9 => Some(What::Value),
            10 => Some(What::Count),
            16 => Some(What::Field(Field::Left)),
            17 => Some(What::Field(Field::Last)),
            _ => None,
        }
    }
}

// A record with another number in one of its fields; a level is the low byte.
fn with(node: Node, field: Field, x: u32) -> Node {
    let mut r = node;
    match field {
        Field::First => r.first = x,
        Field::Right => r.right = x,
        Field::Parent => r.parent = x,
        Field::Children => r.children = x,
        Field::Value => r.value = signed(x),
        Field::Existence => r.existence = low(x),
        Field::Content => r.content = low(x),
        Field::Structure => r.structure = low(x),
        Field::Left => r.left = x,
        Field::Last => r.last = x,
    }
    r
}

impl Standing {
    fn set_field(&mut self, place: usize, field: Field, x: u32) {
        if place < PLACES {
            let node = node::node_of(&self.words, place);
            node::put(&mut self.words, place, with(node, field, x));
        }
    }

    fn set_level(&mut self, i: usize, level: u8) {
        if i < ROOM {
            self.variables.levels[i] = level;
        }
    }

    fn set_value(&mut self, i: usize, value: i32) {
        if i < ROOM {
            self.variables.values[i] = value;
        }
    }

    // Lends n variables, as far as there are so many.
    fn lend(&mut self, n: usize) {
        self.variables.count = n.min(ROOM);
    }
}

// An entry: what is set, at which place, to which number.
pub fn set(t: &mut Standing, entry: &[u8; 8]) {
    let at = half_at(entry, 2);
    let x = full_at(entry, 4);
    match What::of(half_at(entry, 0)) {
        Some(What::Field(field)) => t.set_field(at, field, x),
        Some(What::Level) => t.set_level(at, low(x)),
        Some(What::Value) => t.set_value(at, signed(x)),
        Some(What::Count) => t.lend(x as usize),
        None => (),
    }
}
