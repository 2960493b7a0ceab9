// Standard input, read in blocks and handed out in parts of any length.
ghost use Rattle.std.specs.Prelude.{◌≡◌, [], ◌≤◌, length, MatchOption};
ghost use Rattle.frames.specs.Block.{unread};
ghost use Rattle.frames.specs.Input.{Ready, Handed, Takes};

use print::SIZE;
use std::io::{Read, Stdin};
use std::marker::Model;

// The block that was read last, of which the bytes between two places are not yet handed out.
#[derive(Clone, Copy)]
pub struct Input {
    stdin: Stdin,
    block: [u8; SIZE],
    from: usize,
    end: usize,
}

// Clauses see how many bytes of the block are handed out, those that are left, and all of it: so a value gives its fields back, and an input may be copied.
impl Model for Input {
    ghost use Rattle.std.specs.Prelude.{◌≡◌, ◌≤◌, ◌+◌, length, take, drop};
    ghost use Rattle.frames.specs.Block.{Block, ends};

    ghost Value = { Block };

    ghost view = { λ i. record { gone = i.from; left = drop i.from (take i.end i.block); bytes = i.block; stdin = i.stdin } };

    ghost invariant = { λ i. (i.from ≤ i.end) × (i.end ≤ 65536) × (length i.block ≡ 65536) };

    ghost inverse = { λ b. record { stdin = b.stdin; block = b.bytes; from = b.gone; end = b.gone + length b.left } };

    ghost inverse_ok = { λ i h j. record { stdin = i.stdin; block = i.block; from = i.from; end = ends i.block h.0 h.1 h.2 j } };
}

// Reads once, and says how many bytes came: none where the input has ended or the read fails.
fn refill(stdin: Stdin, block: &mut [u8]) -> usize
    ensures { result ≤ length block.new }
{
    let mut input = stdin;
    input.read(block).unwrap_or(0)
}

impl Input {
    // Before the first byte: no block has been read.
    pub fn of(stdin: Stdin) -> Self
        ensures { result ≡ unread stdin }
    {
        Input {
            stdin,
            block: [0; SIZE],
            from: 0,
            end: 0,
        }
    }

    // How many bytes are left of the block.
    pub(crate) fn left(&self) -> usize
        ensures { result ≡ length self.now.left }
    {
        self.end - self.from
    }

    // Where nothing is left of the block, reads the next, which is empty where the input has ended.
    pub(crate) fn ready(&mut self)
        ensures { Ready self.old self.new }
    {
        if self.from < self.end {
            return;
        }
        self.end = refill(self.stdin, &mut self.block);
        self.from = 0;
    }

    // The next byte; none where the input has ended.
    fn byte(&mut self) -> Option<u8>
        ensures { MatchOption result (Ready self.old self.new × (self.new.left ≡ [])) (λ x. Handed self.old x self.new) }
    {
        self.ready();
        if self.from == self.end {
            return None;
        }
        let b = self.block[self.from];
        self.from += 1;
        Some(b)
    }

    // Puts the next bytes into `to`, as far as the input has so many, and says how many came.
    pub(crate) fn take(&mut self, to: &mut [u8]) -> usize
        ensures { Takes self.old (length to.old) to.old to.new self.new result }
    {
        for (i, place) in to.iter_mut().enumerate() {
            match self.byte() {
                Some(b) => *place = b,
                None => return i,
            }
        }
        to.len()
    }

    // Drops the next n bytes, as far as the input has so many, and says how many came: they are put nowhere. A turn drops all that is wanted of a block.
    pub(crate) fn skip(&mut self, n: usize) -> usize
        ensures { Takes self.old n [] [] self.new result }
    {
        let mut count = 0;
        while count < n {
            self.ready();
            let k = self.left().min(n - count);
            if k == 0 {
                return count;
            }
            self.from += k;
            count += k;
        }
        count
    }
}
