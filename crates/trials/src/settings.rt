// What a job is run with: `name, budget 100, places 512, room 64, lines 256`.
ghost use Rattle.std.specs.Prelude.{◌≤◌};

use text::{decimal, find};

// The budget, and the lengths of the node table in words, of the variables' buffers and of the board in bytes.
#[derive(Drop)]
pub struct Settings {
    pub budget: u64,
    pub words: usize,
    pub room: usize,
    pub lines: usize,
}

// Each number ends where the next word begins: the first p behind the comma is that of places, the first r behind that the one of room, and the first
// l behind that the one of lines.
pub fn read(text: &[u8]) -> Settings
    ensures { (result.words ≤ 5130) × (result.room ≤ 64) × (result.lines ≤ 1280) }
{
    let comma = find(text, 0, b',');
    let p = find(text, comma, b'p');
    let r = find(text, p, b'r');
    let l = find(text, r, b'l');
    let budget = decimal(&text[comma..p]);
    let places = decimal(&text[p..r]).min(513);
    let room = decimal(&text[r..l]).min(64);
    let lines = decimal(&text[l..]).min(256);
    Settings {
        budget: budget as u64,
        words: 10 * places,
        room,
        lines: 5 * lines,
    }
}
