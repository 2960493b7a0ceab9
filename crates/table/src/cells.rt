// The words of a cell: first child, right sibling, parent, existence, value, count of children, content, structure, left sibling, last child.
ghost use Rattle.std.specs.Prelude.{◌≡◌, ◌%◌, ◌<◌};
ghost use Rattle.table.specs.Cells.{cell_size, cell, gone, word, word_of, ByteLevels, label_new, cells, Within};
ghost use Rattle.table.specs.Steps.{with_word, with_label, Put, LedBack, one_more, one_less};

use super::levels::low;
use super::shape::NewNode;

// The words are numbers and no enum, since they are what is added to the start of a cell, and node::read goes from one to the next by a kind's number.
pub const PARENT: usize = 2;

pub const EXISTENCE: usize = 3;

pub const VALUE: usize = 4;

pub const CHILDREN: usize = 5;

pub const CONTENT: usize = 6;

pub const STRUCTURE: usize = 7;

pub const LEFT: usize = 8;

pub const LAST: usize = 9;

// 2 ^ 32: how many numbers a word has.
const RANGE: usize = 4294967296;

// A place as a word: its low 32 bits, taken by a remainder, since a cast may lose no bits.
pub fn word_of(x: usize) -> u32
    ensures { result ≡ word_of x }
{
    (x % RANGE) as u32
}

// Word j of the cell at x.
pub fn get(words: &[u32], places: usize, x: usize, j: usize) -> u32
    requires { Within words.now places x × (j < cell_size) }
    ensures { result ≡ word words.now x j }
{
    let at = super::CELL * x + j;
    words[at]
}

// The place that word j of the cell at x leads to, or no place.
pub fn link(words: &[u32], places: usize, x: usize, j: usize) -> usize
    requires { Within words.now places x × (j < cell_size) }
    ensures { result ≡ word words.now x j }
{
    get(words, places, x, j) as usize
}

// The level in word j of the cell at x.
pub fn level(words: &[u32], places: usize, x: usize, j: usize) -> u8
    requires { Within words.now places x × (j < cell_size) }
    ensures { result ≡ word words.now x j % 256 }
{
    low(get(words, places, x, j))
}

// Makes word j of the cell at x be v.
pub fn store(words: &mut [u32], places: usize, x: usize, j: usize, v: u32)
    requires { Within words.old places x × (j < cell_size) }
    ensures { Put (cells words.old) (cells words.new) x (with_word j v (cells words.old x)) }
{
    let at = super::CELL * x + j;
    words[at] = v;
}

// Leaves the cell at x with no children.
pub fn clear(words: &mut [u32], places: usize, x: usize)
    requires { Within words.old places x }
    ensures { Put (cells words.old) (cells words.new) x
        (with_word 5 0 (with_word 9 gone (with_word 0 gone (cells words.old x)))) }
{
    store(words, places, x, super::FIRST, word_of(super::NIL));
    store(words, places, x, LAST, word_of(super::NIL));
    store(words, places, x, CHILDREN, 0);
}

// Makes the label of the cell at x that of a new node.
fn set_label(words: &mut [u32], places: usize, x: usize, node: NewNode)
    requires { Within words.old places x }
    ensures put { Put (cells words.old) (cells words.new) x (with_label (label_new node) (cells words.old x)) }
    ensures byte_levels { ByteLevels (label_new node) }
{
    store(words, places, x, EXISTENCE, u32::from(node.existence));
    store(words, places, x, VALUE, node.value);
    store(words, places, x, CONTENT, u32::from(node.content));
    store(words, places, x, STRUCTURE, u32::from(node.structure));
}

// Fills the cell at x but for its children.
pub fn fill(
    words: &mut [u32],
    places: usize,
    x: usize,
    right: u32,
    parent: u32,
    left: u32,
    node: NewNode,
)
    requires { Within words.old places x }
    ensures put { Put (cells words.old) (cells words.new) x
        (cell (cells words.old x).first right parent left (cells words.old x).last
        (cells words.old x).children (label_new node)) }
    ensures byte_levels { ByteLevels (label_new node) }
{
    store(words, places, x, super::RIGHT, right);
    store(words, places, x, PARENT, parent);
    store(words, places, x, LEFT, left);
    set_label(words, places, x, node);
}

// Leads back to `prev` from behind it in a list of the parent u: from `next` by its left link, or where that is no place from the parent by its last.
pub fn lead_back(words: &mut [u32], places: usize, next: u32, u: usize, prev: u32)
    requires { Within words.old places u }
    ensures { LedBack (cells words.old) places next u prev (cells words.new) }
{
    let at = next as usize;
    if at < places {
        store(words, places, at, LEFT, prev);
    } else {
        store(words, places, u, LAST, prev);
    }
}

// Counts are of places, so they never reach an end of the words; that they wrap there spares a test.
fn one_more(j: u32) -> u32
    ensures { result ≡ one_more j }
{
    j.wrapping_add(1)
}

fn one_less(j: u32) -> u32
    ensures { result ≡ one_less j }
{
    j.wrapping_sub(1)
}

// Counts one child more at x.
pub fn count_up(words: &mut [u32], places: usize, x: usize)
    requires { Within words.old places x }
    ensures { Put (cells words.old) (cells words.new) x
        (with_word 5 (one_more (cells words.old x).children) (cells words.old x)) }
{
    let j = get(words, places, x, CHILDREN);
    store(words, places, x, CHILDREN, one_more(j));
}

// Counts one child less at x.
pub fn count_down(words: &mut [u32], places: usize, x: usize)
    requires { Within words.old places x }
    ensures { Put (cells words.old) (cells words.new) x
        (with_word 5 (one_less (cells words.old x).children) (cells words.old x)) }
{
    let j = get(words, places, x, CHILDREN);
    store(words, places, x, CHILDREN, one_less(j));
}
