// The record of a place: read off the place's words, and written into them.
ghost use Rattle.std.specs.Prelude.{◌≡◌, ◌+◌, ◌*◌, ◌≤◌, length};
ghost use Rattle.table.specs.Cells.{cell_size, cells};
ghost use Rattle.lent.specs.Lent.{node_of, put_node, blank};

use rules::numbers;
use table::low;

// A place of a lent table, as a record: it says what the place's cell says.
#[repr(C)]
#[derive(Clone, Copy, Debug, PartialEq, Eq)]
pub struct Node {
    pub first: u32,
    pub right: u32,
    pub parent: u32,
    pub children: u32,
    pub left: u32,
    pub last: u32,
    pub value: i32,
    pub existence: u8,
    pub content: u8,
    pub structure: u8,
}

// The record of place x.
pub fn node_of(words: &[u32], x: usize) -> Node
    requires { cell_size * x + cell_size ≤ length words.now }
    ensures { result ≡ node_of (cells words.now x) }
{
    let at = table::CELL * x;
    Node {
        first: words[at],
        right: words[at + 1],
        parent: words[at + 2],
        children: words[at + 5],
        left: words[at + 8],
        last: words[at + 9],
        value: numbers::signed(words[at + 4]),
        existence: low(words[at + 3]),
        content: low(words[at + 6]),
        structure: low(words[at + 7]),
    }
}

// Makes the words of place x be those of a record.
pub fn put(words: &mut [u32], x: usize, node: Node)
    requires { cell_size * x + cell_size ≤ length words.old }
    ensures { words.new ≡ put_node words.old x node }
{
    let at = table::CELL * x;
    let existence = u32::from(node.existence);
    let value = numbers::bits(node.value);
    let content = u32::from(node.content);
    let structure = u32::from(node.structure);
    words[at] = node.first;
    words[at + 1] = node.right;
    words[at + 2] = node.parent;
    words[at + 3] = existence;
    words[at + 4] = value;
    words[at + 5] = node.children;
    words[at + 6] = content;
    words[at + 7] = structure;
    words[at + 8] = node.left;
    words[at + 9] = node.last;
}

// The record of no numbers.
pub fn blank() -> Node
    ensures { result ≡ blank }
{
    Node {
        first: 0,
        right: 0,
        parent: 0,
        children: 0,
        left: 0,
        last: 0,
        value: 0,
        existence: 0,
        content: 0,
        structure: 0,
    }
}
