// Output through a buffer: what is put waits in it until it is full, and is then written out at once.
#![tactic(auto)]

pub mod answer;
pub mod preorder;
pub mod runner;

ghost use Rattle.std.specs.Prelude.{◌≡◌, ◌+◌, ◌/◌, ◌<◌, ◌≤◌, [], min, length};
ghost use Rattle.print.specs.Waiting.{push, pushes, Number, Signed, Shown, Lined, Listed, Row};

use fields::reads::{byte_at, full_at};
use std::marker::Model;

// How many bytes the buffer has.
pub const SIZE: usize = 65536;

// The file descriptors of standard output and standard error.
pub const OUTPUT: u8 = 1;

pub const ERRORS: u8 = 2;

// Where the output goes, and the buffer, in which the first bytes wait.
#[derive(Clone, Copy)]
pub struct Out {
    fd: u8,
    used: usize,
    buf: [u8; SIZE],
}

// Clauses see where it goes and what waits. Behind that the buffer holds zeros alone: so a value gives its fields back, and an output may be copied.
impl Model for Out {
    ghost use Rattle.std.specs.Prelude.{◌-◌, ◌++◌, length, take, replicate};
    ghost use Rattle.print.specs.Waiting.{Output};
    ghost use Rattle.print.specs.Zeros.{Padded, count, whole};

    ghost Value = { Output };

    ghost view = { λ o. record { fd = o.fd; waits = take o.used o.buf } };

    ghost invariant = { λ o. Padded o.used o.buf };

    ghost inverse = { λ v. record { fd = v.fd; used = length v.waits; buf = v.waits ++ replicate (65536 - length v.waits) 0 } };

    ghost inverse_ok = { λ o h i. record { fd = o.fd; used = count h i; buf = whole h i } };
}

impl Out {
    // Output to a file descriptor, of which nothing waits yet.
    pub fn to(fd: u8) -> Self
        ensures { (result.fd ≡ fd) × (result.waits ≡ []) }
    {
        Out {
            fd,
            used: 0,
            buf: [0; SIZE],
        }
    }

    // Writes out what waits, and leaves zeros in its place.
    pub fn flush(&mut self)
        ensures { (self.new.fd ≡ self.old.fd) × (self.new.waits ≡ []) }
    {
        io::write_all(i32::from(self.fd), &self.buf[..self.used]);
        self.buf[..self.used].fill(0);
        self.used = 0;
    }

    // Puts one byte.
    pub fn byte(&mut self, b: u8)
        ensures { (self.new.fd ≡ self.old.fd) × (self.new.waits ≡ push self.old.waits b) }
    {
        if self.used == SIZE {
            self.flush();
        }
        self.buf[self.used] = b;
        self.used += 1;
    }

    // Puts bytes.
    pub fn text(&mut self, bytes: &[u8])
        ensures { (self.new.fd ≡ self.old.fd) × (self.new.waits ≡ pushes self.old.waits bytes.now) }
    {
        for b in bytes {
            self.byte(*b);
        }
    }

    // Puts a number in decimal.
    pub fn number(&mut self, n: u64)
        ensures same { self.new.fd ≡ self.old.fd }
        ensures number { Number n self.old.waits self.new.waits }
    {
        let mut digits = [0u8; 20];
        let k = io::decimal(n, &mut digits);
        self.text(&digits[..k]);
    }

    // Puts the signed number of 32 bits in decimal: they spell 2^32 more where it is below zero.
    pub fn signed(&mut self, bits: u32)
        ensures same { self.new.fd ≡ self.old.fd }
        ensures signed { Signed bits self.old.waits self.new.waits }
    {
        if bits < 2147483648 {
            self.number(u64::from(bits));
            return;
        }
        self.byte(b'-');
        self.number(4294967296 - u64::from(bits));
    }

    // Puts bytes and a number behind them.
    pub fn item(&mut self, name: &[u8], n: u64)
        ensures same { self.new.fd ≡ self.old.fd }
        ensures number { Number n (pushes self.old.waits name.now) self.new.waits }
    {
        self.text(name);
        self.number(n);
    }

    // Puts a number of 32 bits, as a signed one or not.
    fn shown(&mut self, n: u32, below: bool)
        ensures same { self.new.fd ≡ self.old.fd }
        ensures shown { Shown below n self.old.waits self.new.waits }
    {
        if below {
            self.signed(n);
        } else {
            self.number(u64::from(n));
        }
    }

    // Puts a name and numbers of 32 bits on a line of their own, each number behind a space. The one at `below` is signed.
    pub fn row(&mut self, name: &[u8], numbers: &[u32], below: usize)
        ensures same { self.new.fd ≡ self.old.fd }
        ensures row { Row name.now numbers.now below self.old.waits self.new.waits }
    {
        self.text(name);
        for (i, n) in numbers.iter().enumerate() {
            self.byte(b' ');
            self.shown(*n, i == below);
        }
        self.byte(b'\n');
    }

    // Puts the board line at a place of an area: its number, a space and its reader set.
    fn line(&mut self, area: &[u8], at: usize)
        requires { at + 5 ≤ length area.now }
        ensures same { self.new.fd ≡ self.old.fd }
        ensures lined { Lined area.now at self.old.waits self.new.waits }
    {
        self.signed(full_at(area, at));
        self.byte(b' ');
        self.number(byte_at(area, at + 4) as u64);
    }

    // Puts the first n board lines of an area, as far as it has so many, each behind a name and on a line of its own.
    pub fn lines(&mut self, name: &[u8], area: &[u8], n: usize)
        ensures same { self.new.fd ≡ self.old.fd }
        ensures listed { Listed name.now area.now self.old.waits (min n (length area.now / 5)) self.new.waits }
    {
        for i in 0..n.min(area.len() / 5) {
            self.text(name);
            self.line(area, 5 * i);
            self.byte(b'\n');
        }
    }
}
