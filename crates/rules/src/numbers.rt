// Signed 32-bit numbers: their bits, and what each operator makes of two of them.
ghost use Rattle.std.specs.Prelude.{◌≡◌, ◌+ℤ◌, ◌-ℤ◌};
ghost use Rattle.rules.specs.Number.{Fits, bits, signed, fitting, equal, less, mean, is_zero};

// The 32 bits of a number, in two's complement.
pub fn bits(v: i32) -> u32
    ensures { result ≡ bits v }
{
    v.cast_unsigned()
}

// 32 bits as a signed number: from 2 ^ 31 on they stand for the number 2 ^ 32 below.
pub fn signed(w: u32) -> i32
    ensures { result ≡ signed w }
{
    w.cast_signed()
}

// What an exact result comes to: a number, or none where it is outside signed 32 bits.
pub fn fitting(z: i64) -> Option<i32>
    ensures { result ≡ fitting z }
{
    i32::try_from(z).ok()
}

pub fn sum(a: i64, b: i64) -> i64
    requires { Fits a × Fits b }
    ensures { result ≡ a +ℤ b }
{
    a + b
}

pub fn difference(a: i64, b: i64) -> i64
    requires { Fits a × Fits b }
    ensures { result ≡ a -ℤ b }
{
    a - b
}

pub fn equal(a: i64, b: i64) -> i64
    ensures { result ≡ equal a b }
{
    i64::from(a == b)
}

pub fn less(a: i64, b: i64) -> i64
    ensures { result ≡ less a b }
{
    i64::from(a < b)
}

// Rounded down, below zero too, of the exact sum: an arithmetic shift rounds down, where a division would round toward zero.
pub fn mean(a: i64, b: i64) -> i64
    requires { Fits a × Fits b }
    ensures { result ≡ mean a b }
{
    (a + b) >> 1
}

pub fn is_zero(a: i32) -> bool
    ensures { result ≡ is_zero a }
{
    a == 0
}
