// The lines of the stored answers.
ghost use Rattle.std.specs.Prelude.{◌≡◌, ◌-◌, length};
ghost use Rattle.std.specs.Iterator.{at_most};

use crate::hex::{byte, read_bytes};
use mrc_c::decode::mrc_decode;

// The most bytes of one input.
const INPUT: usize = 512;

// Where a line has its budget, behind its reading.
const BUDGET: usize = 3;

// Where it has its position.
const POSITION: usize = 6;

// Where it has its record.
const RECORD: usize = 11;

// Where it has its input.
const BYTES: usize = 76;

// What stands from a position on.
fn behind(s: &[u8], at: usize) -> &[u8]
    ensures { length result.now ≡ length s.now - at }
{
    s.get(at..).unwrap_or(&[])
}

// The byte whose digits stand first, and the digits behind them.
fn first_byte(digits: &[u8]) -> (u8, &[u8])
    ensures { length result.1.now ≡ length digits.now - 2 }
{
    match digits {
        [high, low, rest @ ..] => (byte(&[*high, *low]), rest),
        _ => (byte(digits), &[]),
    }
}

// A line, without its LF; and all that is stored from its start on, where a field is looked for that the line is too short for.
#[derive(Clone, Copy)]
pub struct Line<'a> {
    pub text: &'a [u8],
    stored: &'a [u8],
}

impl Line<'_> {
    fn byte_at(self, at: usize) -> u8 {
        byte(behind(self.stored, at))
    }

    // Whether the decoder's answer on the line is the stored one.
    pub fn agrees(self) -> bool {
        let position = u16::from_be_bytes([self.byte_at(POSITION), self.byte_at(POSITION + 2)]);
        let length = behind(self.text, BYTES).len().div_ceil(2).min(INPUT);
        let mut input = [0u8; INPUT];
        read_bytes(behind(self.stored, BYTES), &mut input[..length]);
        let mut record = [0u64; 5];
        let budget = self.byte_at(BUDGET);
        let reading = self.byte_at(0);
        mrc_decode(
            &input[..length],
            usize::from(position),
            budget,
            reading,
            &mut record,
        );
        self.has(&record)
    }

    // Whether a record's first four words are the line's, each with its lowest byte first, and there is no third operand. A byte is read when it is compared,
    // so a line that differs is read no further.
    fn has(self, record: &[u64; 5]) -> bool {
        let mut digits = behind(self.stored, RECORD);
        for word in &record[..4] {
            for own in word.to_le_bytes() {
                let (stored, rest) = first_byte(digits);
                if stored != own {
                    return false;
                }
                digits = rest;
            }
        }
        record[4] == 0
    }
}

// The lines that are left.
#[derive(Drop)]
pub struct Lines<'a>(pub &'a [u8]);

impl<'a> Iterator for Lines<'a> {
    type Item = Line<'a>;

    ghost remaining = { λ s. at_most (length s.0.now) };

    fn next(&mut self) -> Option<Line<'a>> {
        let stored = self.0;
        if stored.is_empty() {
            return None;
        }
        let text = stored.split(|b| *b == b'\n').next()?;
        self.0 = behind(stored, text.len() + 1);
        Some(Line { text, stored })
    }
}
