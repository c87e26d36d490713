// Bytes in hex digits. Every byte counts as a digit, as do missing ones, so that each line has an answer: `char::to_digit` and `from_str_radix` would refuse.
ghost use Rattle.std.specs.Prelude.{◌<◌};

// The value of an upper-case hex digit.
fn digit(c: u8) -> u8
    ensures { result < 16 }
{
    if c < 58 { c % 16 } else { (c % 16 + 9) % 16 }
}

// The byte whose digits stand first.
pub fn byte(digits: &[u8]) -> u8 {
    match digits {
        [high, low, ..] => digit(*high) * 16 + digit(*low),
        [high] => digit(*high) * 16,
        [] => 0,
    }
}

// Puts the bytes whose digits stand first, and leaves those as they are for which there are none.
pub fn read_bytes(digits: &[u8], bytes: &mut [u8]) {
    for (place, pair) in bytes.iter_mut().zip(digits.chunks(2)) {
        *place = byte(pair);
    }
}
