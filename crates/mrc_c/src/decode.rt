// The decode for C and Rust.
ghost use Rattle.mrc_rules.specs.Decode.{decode_at};
ghost use Rattle.mrc_c.specs.Readings.{reading_of};
ghost use Rattle.mrc_c.specs.Record.{record_of, Written};

use crate::readings::reading_of;
use crate::record::record_of;
use mrc_decoder::decode::decode_instruction;

// Writes the record of a decode in a reading.
pub fn mrc_decode(s: &[u8], at: usize, budget: u8, reading: u8, out: &mut [u64; 5])
    ensures { Written (record_of (decode_at (reading_of reading) s.now at budget)) out.new }
{
    *out = record_of(decode_instruction(s, at, budget, reading_of(reading)));
}
