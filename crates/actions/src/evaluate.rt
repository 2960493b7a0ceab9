// The value and the level E of an expression.
ghost use Rattle.std.specs.Prelude.{◌≡◌, ◌<◌};
ghost use Rattle.rules.specs.Number.{Fits};
ghost use Rattle.rules.specs.Job.{operand};
ghost use Rattle.fields.specs.Fields.{expression_from};
ghost use Rattle.actions.specs.Shows.{Readable, Named, Reads};
ghost use Rattle.actions.specs.Acts.{Operates, Applies, Evaluates};

use super::memory::{Memory, level_of};
use fields::records::Fields;
use rules::levels::{PUBLIC, join};
use rules::numbers;
use table::node;

// What an expression comes to, and its level.
#[derive(Debug, PartialEq, Eq, Drop)]
pub struct Valued {
    pub value: Option<i32>,
    pub level: u8,
}

// An operand's value and level.
#[derive(Debug, PartialEq, Eq, Drop)]
struct Found {
    value: i32,
    level: u8,
}

// An operand, by its kind and its number, which are the bytes of the record.
fn operand(
    kind: u8,
    number: u32,
    levels: &[u8],
    values: &[i32],
    vars: usize,
    words: &[u32],
    places: usize,
    m: Memory,
) -> Found
    requires { Readable words.now levels.now values.now places vars m × Named vars kind number }
    ensures { Operates words.now levels.now values.now places vars m (operand kind number) result }
{
    match kind {
        0 => Found {
            value: numbers::signed(number),
            level: PUBLIC,
        },
        1 => {
            let i = number as usize;
            Found {
                value: values[i],
                level: levels[i],
            }
        }
        _ => {
            let k = usize::from(kind);
            Found {
                value: numbers::signed(node::read(words, places, m.cursor, k)),
                level: join(level_of(m), node::level_read(words, places, m.cursor, k)),
            }
        }
    }
}

// What an operator makes of two numbers, exactly.
fn apply(operator: u8, a: i64, b: i64) -> i64
    requires { (0 < operator) × (Fits a × Fits b) }
    ensures { Applies operator a b result }
{
    match operator {
        1 => numbers::sum(a, b),
        2 => numbers::difference(a, b),
        3 => numbers::equal(a, b),
        4 => numbers::less(a, b),
        _ => numbers::mean(a, b),
    }
}

// The expression of a record. It is small enough to stand in each arm of a step.
pub fn evaluate(
    f: Fields,
    levels: &[u8],
    values: &[i32],
    vars: usize,
    words: &[u32],
    places: usize,
    m: Memory,
) -> Valued
    requires { Readable words.now levels.now values.now places vars m × Reads vars f }
    ensures { Evaluates words.now levels.now values.now places vars m (expression_from f) result }
{
    let left = operand(f.leftkind, f.left, levels, values, vars, words, places, m);
    let operator = f.operator;
    if operator == 0 {
        return Valued {
            value: Some(left.value),
            level: left.level,
        };
    }
    let right = operand(f.rightkind, f.right, levels, values, vars, words, places, m);
    let z = apply(operator, i64::from(left.value), i64::from(right.value));
    Valued {
        value: numbers::fitting(z),
        level: join(left.level, right.level),
    }
}
