// A job in text form: hexadecimal digits, two to a byte, where [3*00ff] stands for three times 00ff. All other characters are left out.
#![tactic(auto)]

ghost use Rattle.std.specs.Prelude.{List, ◌∷◌, ◌++◌, ◌≡◌, ◌==◌, ℕ, ◌+◌, ◌<◌, ◌≤◌, min, length, drop, IfSome, option_to_list};
ghost use Rattle.std.specs.List.{position};
ghost use Rattle.io.specs.Counts.{IsPrefixLen};
ghost use Rattle.text.specs.Hex.{first_of, digit_of, digits, one_more, number_of, bytes_of, plain, times, spelled, placed, Leaves};

// The first place of the character, where it stands in the text.
fn place(text: &[u8], c: u8) -> Option<usize>
    ensures { result ≡ position (λ x. x == c) text.now }
{
    text.iter().position(|b| *b == c)
}

// The first place from `from` on with the character, or the length: callers cut the text there, and where the character is missing they want all the rest.
pub fn find(text: &[u8], from: usize, c: u8) -> usize
    requires { from ≤ length text.now }
    ensures bounds { (from ≤ result) × (result ≤ length text.now) }
    ensures first { result ≡ from + first_of c (drop from text.now) }
{
    match place(&text[from..], c) {
        Some(k) => from + k,
        None => text.len(),
    }
}

// What a hexadecimal digit stands for.
#[tactic(auto, unfolding(crate::specs::Hex::digit_of))]
fn digit(c: u8) -> Option<u8>
    ensures few { IfSome result (λ d. d < 16) }
    ensures value { result ≡ digit_of c }
{
    match c {
        b'0'..=b'9' => Some(c - b'0'),
        b'a'..=b'f' => Some(c - b'a' + 10),
        _ => None,
    }
}

// A number with one digit more. What follows eight digits is left out.
#[tactic(auto, unfolding(crate::specs::Hex::one_more))]
fn more(value: usize, d: u8) -> usize
    requires { value < 100000000 }
    ensures { (result < 100000000) × (result ≡ one_more value d) }
{
    if value < 10000000 && d < 10 {
        value * 10 + usize::from(d)
    } else {
        value
    }
}

// The number that the decimal digits spell, whatever else stands among them.
pub fn decimal(text: &[u8]) -> usize
    ensures { (result < 100000000) × (result ≡ number_of 0 (digits text.now)) }
{
    let mut value = 0;
    for c in text {
        if let Some(d) = digit(*c) {
            value = more(value, d);
        }
    }
    value
}

// How many bytes there are, and the first digit of the next, where it has come.
#[derive(Clone, Copy)]
struct Spot {
    count: usize,
    high: Option<u8>,
}

// One digit more: of two digits comes a byte, as far as there is room.
fn put(bytes: &mut [u8], s: Spot, d: u8) -> Spot
    requires { (s.count ≤ length bytes.old) × IfSome s.high (λ h. h < 16) × (d < 16) }
    ensures count_in_bounds { (result.count ≤ length bytes.new) × IfSome result.high (λ h. h < 16) }
    ensures by_index { (ds k : List ℕ) → Leaves bytes.old s.count (bytes_of (option_to_list s.high ++ (d ∷ ds)) ++ k) bytes.new result.count (bytes_of (option_to_list result.high ++ ds) ++ k) }
{
    let count = s.count;
    let Some(high) = s.high else {
        return Spot {
            count,
            high: Some(d),
        };
    };
    if count == bytes.len() {
        return Spot { count, high: None };
    }
    bytes[count] = high * 16 + d;
    Spot {
        count: count + 1,
        high: None,
    }
}

// Puts the bytes that the text spells behind the first n, and answers how many there are then.
fn append(text: &[u8], bytes: &mut [u8], n: usize) -> usize
    requires { n ≤ length bytes.old }
    ensures upper_bound { result ≤ length bytes.new }
    ensures by_index { (k : List ℕ) → Leaves bytes.old n (plain text.now ++ k) bytes.new result k }
{
    // In a full area nothing is put, however often a text is repeated.
    if n == bytes.len() {
        return n;
    }
    let mut s = Spot {
        count: n,
        high: None,
    };
    for c in text {
        if let Some(d) = digit(*c) {
            s = put(bytes, s, d);
        }
    }
    s.count
}

// Puts them so many times.
fn repeat(text: &[u8], often: usize, bytes: &mut [u8], n: usize) -> usize
    requires { n ≤ length bytes.old }
    ensures upper_bound { result ≤ length bytes.new }
    ensures by_index { (k : List ℕ) → Leaves bytes.old n (times often (plain text.now) ++ k) bytes.new result k }
{
    let mut count = n;
    for i in 0..often {
        count = append(text, bytes, count);
    }
    count
}

// The bytes of a job in text form, as far as there is room, and how many there are. No index is counted: a turn goes on behind the bracket that it has
// come to. Brackets that do not match rule out a split at them.
pub fn expand(text: &[u8], bytes: &mut [u8]) -> usize
    ensures prefix_len { IsPrefixLen result bytes.new × (result ≡ min (length (spelled text.now)) (length bytes.old)) }
    ensures bytes_after { bytes.new ≡ placed bytes.old 0 (spelled text.now) }
{
    let mut n = 0;
    let mut i = 0;
    while i < text.len() {
        let open = find(text, i, b'[');
        n = append(&text[i..open], bytes, n);
        let star = find(text, open, b'*');
        let close = find(text, star, b']');
        let times = decimal(&text[open..star]);
        n = repeat(&text[star..close], times, bytes, n);
        i = close + 1;
    }
    n
}
