// The counts of a decode for C and Rust.
ghost use Rattle.std.specs.Prelude.{◌≡◌};
ghost use Rattle.mrc_rules.specs.Decode.{decode_at};
ghost use Rattle.mrc_c.specs.Readings.{reading_of};
ghost use Rattle.mrc_c.specs.Step.{step_code};

use crate::readings::reading_of;
use mrc_decoder::decode::decode_instruction;
use mrc_instruction::widths::{DOUBLE_WORDS, WORDS};
use mrc_rules::Answer;

// The bytes taken, 65,536 times the prefixes, and 4,294,967,296 times the refusal's number, 0 for an instruction.
pub fn mrc_step(s: &[u8], at: usize, budget: u8, reading: u8) -> u64
    ensures { result ≡ step_code (decode_at (reading_of reading) s.now at budget) }
{
    let Answer {
        result,
        taken,
        prefixes,
    } = decode_instruction(s, at, budget, reading_of(reading));
    let counts = ((taken % WORDS) as u64) + (WORDS as u64) * ((prefixes % WORDS) as u64);
    match result {
        Ok(_) => return counts,
        Err(refusal) => return counts + (DOUBLE_WORDS as u64) * u64::from(refusal.number()),
    }
}
