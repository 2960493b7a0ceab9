// Programs that answer one frame after the other: frames come on standard input, a header and a body each, and answers wait in a buffer for standard
// output.
#![tactic(auto)]

pub mod input;
pub mod outcome;

ghost use Rattle.std.specs.Prelude.{◌∷◌, [], ◌≡◌, ◌+◌, ◌<◌, ◌≤◌, min, length, Err, IfOk};
ghost use Rattle.frames.specs.Header.{header_at};
ghost use Rattle.frames.specs.Input.{settled, started, finished, Reads, Keeps, Comprises};
ghost use Rattle.frames.specs.Pieces.{Writes, item, text};

use fields::reads::{full_at, half_at};
use input::Input;
use print::Out;
use std::io::Stdin;

// The input has ended: before a frame, or within one.
#[derive(Clone, Copy, Debug, PartialEq, Eq)]
pub struct Ended;

// What is read and what is to be written, from one frame to the next.
#[derive(Clone, Copy)]
pub struct State {
    pub input: Input,
    pub out: Out,
}

impl State {
    pub fn start(stdin: Stdin) -> Self
        ensures { result ≡ started stdin }
    {
        State {
            input: Input::of(stdin),
            out: Out::to(print::OUTPUT),
        }
    }

    // Puts what an answer begins with: a name, and the number of the frame.
    pub fn head(&mut self, name: &[u8], k: u64)
        ensures input { self.new.input ≡ self.old.input }
        ensures writes { Writes (item name.now k ∷ text (10 ∷ []) ∷ []) self.old.out self.new.out }
    {
        self.out.item(name, k);
        self.out.byte(b'\n');
    }

    // The end of the input.
    fn finish(&mut self) -> Result<(), Ended>
        ensures ended { result ≡ Err record {} }
        ensures value { self.new ≡ finished self.old }
    {
        self.out.flush();
        Err(Ended)
    }

    // The end of the input within a frame.
    fn truncated(&mut self) -> Result<(), Ended>
        ensures ended { result ≡ Err record {} }
        ensures value { self.new ≡ finished self.old }
    {
        self.out.text(b"truncated\n");
        self.finish()
    }

    // Whoever sends one frame at a time gets its answer before the next: where the block has no n bytes more, what waits is written out before more is read.
    fn settle(&mut self, n: usize)
        ensures input { self.new.input ≡ self.old.input }
        ensures out { self.new.out ≡ settled self.old n }
    {
        if self.input.left() < n {
            self.out.flush();
        }
    }

    // Fills a part of a frame.
    pub fn part(&mut self, to: &mut [u8]) -> Result<(), Ended>
        ensures { Reads self.old (length to.old) to.old to.new self.new result }
    {
        self.settle(to.len());
        if self.input.take(to) < to.len() {
            return self.truncated();
        }
        Ok(())
    }

    // Passes over n bytes of a frame: they are put nowhere.
    pub fn pass(&mut self, n: usize) -> Result<(), Ended>
        ensures { Reads self.old n [] [] self.new result }
    {
        self.settle(n);
        if self.input.skip(n) < n {
            return self.truncated();
        }
        Ok(())
    }

    // The header of the next frame, which has a byte at least; the end, where the input has ended before it.
    pub fn next(&mut self, head: &mut [u8]) -> Result<(), Ended>
        ensures reads { 0 < length head.old → Reads self.old (length head.old) head.old head.new self.new result }
        ensures keeps { Keeps self.old.out self.new.out }
    {
        self.settle(1);
        self.input.ready();
        if self.input.left() == 0 {
            return self.finish();
        }
        self.part(head)
    }

    // Reads a body of a size, and says how many bytes of it are in its buffer. What does not fit is passed over.
    pub fn read_body(&mut self, to: &mut [u8], size: usize) -> Result<usize, Ended>
        ensures count { IfOk result (λ n. (n ≡ min size (length to.old)) × (n ≤ length to.new)) }
        ensures reads { Reads self.old size to.old to.new self.new result }
    {
        let count = size.min(to.len());
        self.part(&mut to[..count])?;
        self.pass(size - count)?;
        Ok(count)
    }

    // The next event: its kind in 4 bytes, and its header.
    pub fn next_event(&mut self) -> Result<Event, Ended>
        ensures lines { IfOk result (λ e. e.header.lines < 65536) }
        ensures comprises { Comprises self.old self.new result }
    {
        let mut bytes = [0u8; 16];
        self.next(&mut bytes)?;
        Ok(Event {
            kind: full_at(&bytes, 0),
            header: read_header(&bytes, 4),
        })
    }
}

// How long a body is, and what its run is lent: a budget, places of the node table and board lines.
#[derive(Clone, Copy)]
pub struct Header {
    pub size: usize,
    pub budget: u64,
    pub places: usize,
    pub lines: usize,
}

// The header from a place on: the size and the budget in 4 bytes each, the places and the lines in 2.
pub fn read_header(head: &[u8], at: usize) -> Header
    requires { at + 12 ≤ length head.now }
    ensures { (result ≡ header_at head.now at) × ((result.places < 65536) × (result.lines < 65536)) }
{
    Header {
        size: full_at(head, at) as usize,
        budget: u64::from(full_at(head, at + 4)),
        places: half_at(head, at + 8),
        lines: half_at(head, at + 10),
    }
}

// What kind of event it is, and its header.
#[derive(Clone, Copy)]
pub struct Event {
    pub kind: u32,
    pub header: Header,
}

// A number that no kind of event has.
#[derive(Clone, Copy, Debug, PartialEq, Eq)]
pub struct Unknown;
