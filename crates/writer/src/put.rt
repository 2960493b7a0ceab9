// The records of a job, stored at a place of an area, and its trailer.
ghost use Rattle.std.specs.Prelude.{◌≡◌, ◌+◌, ◌≤◌, length};
ghost use Rattle.rules.specs.Bytes.{two};
ghost use Rattle.rules.specs.Limits.{trailer_size, variable_size, node_size};
ghost use Rattle.rules.specs.Write.{trailer, variable, node_bytes};
ghost use Rattle.lent.specs.Lent.{cell_of};
ghost use Rattle.writer.specs.Area.{replaced, entry};

use lent::Node;
use rules::limits::{NODE_SIZE, TRAILER_SIZE, VARIABLE_SIZE};

// The two bytes of a place or an index, which a record cuts to 16 bits.
fn two(x: usize) -> [u8; 2]
    ensures { result ≡ two x }
{
    ((x % 65536) as u16).to_le_bytes()
}

// A variable's record.
pub fn put_variable(area: &mut [u8], at: usize, level: u8, value: i32)
    requires { at + variable_size ≤ length area.old }
    ensures { area.new ≡ replaced area.old at (variable level value) }
{
    let [a, b, c, d] = value.to_le_bytes();
    let record = [level, 0, 0, 0, a, b, c, d];
    area[at..at + VARIABLE_SIZE].copy_from_slice(&record);
}

// A node's record, with its parent's index.
pub fn put_node(area: &mut [u8], at: usize, parent: usize, d: Node)
    requires { at + node_size ≤ length area.old }
    ensures { area.new ≡ replaced area.old at (node_bytes (entry parent (cell_of d).label)) }
{
    let [low, high] = two(parent);
    let [a, b, c, e] = d.value.to_le_bytes();
    let record = [
        low,
        high,
        d.existence,
        d.content,
        d.structure,
        0,
        0,
        0,
        a,
        b,
        c,
        e,
    ];
    area[at..at + NODE_SIZE].copy_from_slice(&record);
}

// The trailer, behind an empty script: the nodes start at `nodes`, the script and the trailer at `at`.
pub fn put_trailer(area: &mut [u8], nodes: usize, at: usize)
    requires { at + trailer_size ≤ length area.old }
    ensures { area.new ≡ replaced area.old at (trailer nodes at at) }
{
    let [a, b] = two(nodes);
    let [c, d] = two(at);
    area[at..at + TRAILER_SIZE].copy_from_slice(&[0, 0, a, b, c, d, c, d]);
}
