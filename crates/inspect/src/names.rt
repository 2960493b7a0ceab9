// The names of the endings, by the number that the answer has.
pub fn name(ending: u8) -> &'static [u8] {
    match ending {
        0 => b"finished",
        1 => b"wrong size",
        2 => b"broken layout",
        3 => b"count out of range",
        4 => b"variable level out of range",
        5 => b"parent rule broken",
        6 => b"tree rule broken",
        7 => b"command or field out of range",
        8 => b"blocks do not match",
        9 => b"budget out of range",
        10 => b"buffers do not fit",
        12 => b"spare byte not zero",
        13 => b"node out of order",
        21 => b"flow rule broken",
        22 => b"node does not exist",
        23 => b"table full",
        24 => b"board full",
        25 => b"budget used up",
        27 => b"result out of range",
        _ => b"unknown",
    }
}
