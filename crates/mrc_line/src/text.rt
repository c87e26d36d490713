// The pieces of a line, written into a buffer. Each writer takes the position to write at and answers the position after what it wrote.
// (`buf` and `at` are no struct with methods: with such a pen behind a `&mut` a line takes 22 in 100 instructions more, since each byte stored is followed by
// loads of the pen; one handed on by value is taken and answered by each writer as `at` is, takes 1 in 100 more, and is no plainer. Nor is what is printed a
// `Display`, which hands on no position and could not meet `Put`.)
ghost use Rattle.std.specs.Prelude.{◌≡◌, ◌+◌, ◌<◌, ◌≤◌, [], ◌∷◌, length, replicate};
ghost use Rattle.mrc_line.specs.Text.{Put, digit_of, hex2, hex4, pairs, padded, shown, field_width};

// How many of the bytes taken are shown, and how many characters their field has.
pub const SHOWN: usize = 7;

const FIELD: usize = 21;

const DIGITS: [u8; 16] = *b"0123456789ABCDEF";

// The digit of a number below 16, which the library has in no method.
fn digit(n: u8) -> u8
    requires { n < 16 }
    ensures { result ≡ digit_of n }
{
    DIGITS[n as usize]
}

// One byte.
pub fn put_byte(buf: &mut [u8], at: usize, b: u8) -> usize
    requires { at + 1 ≤ length buf.old }
    ensures { Put 1 buf.old at (b ∷ []) buf.new result }
{
    buf[at] = b;
    at + 1
}

// All the bytes of `src`. (`copy_from_slice` asks first whether the two overlap: five instructions more for each piece. The position
// that is counted is what is answered.)
pub fn put_bytes(buf: &mut [u8], at: usize, src: &[u8]) -> usize
    requires { at + length src.now ≤ length buf.old }
    ensures { Put (length src.now) buf.old at src.now buf.new result }
{
    let mut o = at;
    for &b in src {
        buf[o] = b;
        o += 1;
    }
    o
}

// So many spaces.
pub fn put_spaces(buf: &mut [u8], at: usize, n: usize) -> usize
    requires { at + n ≤ length buf.old }
    ensures { Put n buf.old at (replicate n 32) buf.new result }
{
    let end = at + n;
    buf[at..end].fill(b' ');
    end
}

// A byte, as two digits.
pub fn put_hex2(buf: &mut [u8], at: usize, b: u8) -> usize
    requires { at + 2 ≤ length buf.old }
    ensures { Put 2 buf.old at (hex2 b) buf.new result }
{
    buf[at] = digit(b / 16);
    buf[at + 1] = digit(b % 16);
    at + 2
}

// A word, as four digits.
pub fn put_hex4(buf: &mut [u8], at: usize, w: u16) -> usize
    requires { at + 4 ≤ length buf.old }
    ensures { Put 4 buf.old at (hex4 w) buf.new result }
{
    let o = put_hex2(buf, at, (w / 256) as u8); // as the rule has it: by `to_le_bytes` no plainer
    put_hex2(buf, o, (w % 256) as u8)
}

// At most seven bytes, each as two digits and a space, over a field of blanks. (A known number of blanks is three stores; one that depends on the bytes is
// a call of `memset`. The pairs stand three apart, as `o` says: over `chunks_mut` each would be put at 0 of a piece, which is no plainer.)
pub fn put_field(buf: &mut [u8], at: usize, src: &[u8]) -> usize
    requires { (at + field_width ≤ length buf.old) × (length src.now ≤ shown) }
    ensures { Put field_width buf.old at (padded field_width (pairs src.now)) buf.new result }
{
    let end = put_spaces(buf, at, FIELD);
    let mut o = at;
    for &b in src {
        put_hex2(buf, o, b);
        o += 3;
    }
    end
}
