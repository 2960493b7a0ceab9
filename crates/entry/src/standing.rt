// Whether a tree stands in lent records, which may say anything.
ghost use Rattle.entry.specs.Records.{Unmarked, Surveys};

use lent::Node;
use lent::standing::{ask, start, turn};
use rules::limits::MAX_NODES;
use table::NIL;

// Whether a tree stands in the records; if so, its places have a mark then, if they are among the first 512, and no others. The walk is that over words,
// and needs the record of one place a turn. The marks are lent, to be filled in place, and count where the answer is true.
pub fn held(table: &[Node], marks: &mut [u8]) -> bool
    requires { Unmarked marks.old }
    ensures { Surveys table.now marks.new result }
{
    // A link can lead to so many places.
    let n = table.len().min(NIL);
    let mut dues = [0u32; MAX_NODES];
    let mut bounds = [0u8; MAX_NODES];
    let mut s = start();
    let mut x = ask(s, n);
    while x < n {
        s = turn(s, table[x], &mut dues, &mut bounds, marks);
        x = ask(s, n);
    }
    x > n
}
