// The last tree, a node to a line, two spaces further in with each step below the root.
ghost use Rattle.std.specs.Prelude.{◌<◌};

use print::preorder::Visit;
use print::runner::{PLACES, WORDS};
use print::{Out, preorder};
use table::node;

fn line(out: &mut Out, words: &[u32; WORDS], v: Visit)
    requires { v.place < 512 }
{
    let at = v.place;
    for _ in 0..v.depth {
        out.text(b"  ");
    }
    out.text(b"  value ");
    out.signed(node::value(words, PLACES, at));
    out.item(
        b", existence ",
        u64::from(node::existence(words, PLACES, at)),
    );
    out.item(b", content ", u64::from(node::content(words, PLACES, at)));
    out.item(b", list ", u64::from(node::structure(words, PLACES, at)));
    out.byte(b'\n');
}

fn nodes(out: &mut Out, words: &[u32; WORDS]) {
    let mut v = preorder::first();
    for k in 0..PLACES {
        line(out, words, v);
        let Some(w) = preorder::next(words, PLACES, v) else {
            return;
        };
        v = w;
    }
}

pub fn show(out: &mut Out, words: &[u32; WORDS]) {
    out.item(b"tree ", preorder::count(words, PLACES) as u64);
    out.byte(b'\n');
    nodes(out, words);
}
