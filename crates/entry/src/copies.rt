// The places of a run, copied out into node records and back into words.
ghost use Rattle.std.specs.Prelude.{◌≡◌, ◌*◌, ◌≤◌, length};
ghost use Rattle.table.specs.Cells.{cell_size};
ghost use Rattle.lent.specs.Lent.{stored};
ghost use Rattle.entry.specs.Records.{Loads};

use lent::{Node, node};

// Makes the first n records those of the first n places.
pub fn store(table: &mut [Node], words: &[u32], n: usize)
    requires { (n ≤ length table.old) × (cell_size * n ≤ length words.now) }
    ensures { table.new ≡ stored words.now n table.old }
{
    for x in 0..n {
        table[x] = node::node_of(words, x);
    }
}

// Makes the first n places those of the first n records.
pub fn load(table: &[Node], words: &mut [u32], n: usize)
    requires { (n ≤ length table.now) × (cell_size * n ≤ length words.old) }
    ensures { Loads table.now n words.old words.new }
{
    for x in 0..n {
        // The value is read, so that it is known to be of 32 bits.
        let d = table[x];
        let _value = d.value;
        node::put(words, x, d);
    }
}
