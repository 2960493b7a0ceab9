// What stands, written back as a job into an area of its own.
use super::standing::Standing;
use frames::outcome::PLACES;
use frames::{Header, outcome};
use print::Out;
use writer::write_words;

// How many bytes the largest area has.
const AREA: usize = 24000;

// Each byte of it before a call.
const BEFORE: u8 = 170;

// What stands in the first places, with the lent variables, in as many bytes as the budget says, as far as there are.
pub fn put(out: &mut Out, t: &Standing, h: Header, k: u64) {
    let mut all = [BEFORE; AREA];
    let area = &mut all[..(h.budget as usize).min(AREA)];
    let end = table::CELL * h.places.min(PLACES);
    let v = &t.variables;
    let answer = match write_words(
        &t.words[..end],
        &v.levels[..v.count],
        &v.values[..v.count],
        area,
    ) {
        Ok(length) => length as u64,
        Err(number) => u64::from(number),
    };
    out.item(b"written ", k);
    out.item(b" ", answer);
    out.text(b"\narea ");
    outcome::put_hex(out, area);
    out.byte(b'\n');
}
