// The sets that a command's bytes give: with the old mark, and of a cover.
ghost use Rattle.std.specs.Prelude.{◌≡◌, ◌≤◌};
ghost use Rattle.rules.specs.Script.{content_set, list_set, cover_set};

use rules::levels::{SECRET, join};

// What a new node's content joins: its set, and 1 where the mark is odd.
pub fn content_set(mark: u8, set: u8) -> u8
    ensures { result ≡ content_set mark set }
{
    join(set, mark % 2)
}

// What its list joins: its set, and 1 where the mark is 2 or 3.
pub fn list_set(mark: u8, set: u8) -> u8
    requires { mark ≤ 3 }
    ensures { result ≡ list_set mark set }
{
    join(set, mark / 2)
}

// What a cover joins: its set, or 1 where that is none.
pub fn cover_set(set: u8) -> u8
    ensures { result ≡ cover_set set }
{
    if set == 0 { SECRET } else { set }
}
