// The ModRM reader for C and Rust: two machine words.
ghost use Rattle.std.specs.Prelude.{◌<◌};
ghost use Rattle.mrc_instruction.specs.Widths.{words};
ghost use Rattle.mrc_instruction.specs.Reader.{read_at};
ghost use Rattle.mrc_instruction.specs.Mrrm.{a_modrm};
ghost use Rattle.mrc_instruction.specs.Read.{mrrm_read, read_values};
ghost use Rattle.mrc_c.specs.Operands.{OperandHeld};
ghost use Rattle.mrc_c.specs.Modrm.{named_fields, modrm_by, ModrmHeld, modrm_of, ModrmWritten};

use crate::operands::fields_word;
use crate::words::{FROM_1, FROM_2, FROM_4, FROM_5};
use mrc_instruction::mrrm::{RegisterOrMemory, WrittenModRM, read_mrrm};
use mrc_instruction::read::Read;
use mrc_instruction::signed::{unsigned_byte, unsigned_word};

fn named_word(named: RegisterOrMemory) -> u64
    ensures { OperandHeld (named_fields named) result }
{
    match named {
        RegisterOrMemory::Direct(offset) => fields_word(1, 0, 0, 0, offset, 0),
        RegisterOrMemory::Indirect(mode) => fields_word(2, 0, mode.into(), 0, 0, 0),
        RegisterOrMemory::DisplacementByte(mode, d) => {
            fields_word(3, 0, mode.into(), 0, unsigned_byte(d).into(), 0)
        }
        RegisterOrMemory::DisplacementWord(mode, d) => {
            fields_word(4, 0, mode.into(), 0, unsigned_word(d), 0)
        }
        RegisterOrMemory::Register(register) => fields_word(5, register.into(), 0, 0, 0, 0),
    }
}

// (A count below 65,536 is what C's 16 bits for it need; a type of such counts would be made and taken apart here alone.)
fn modrm_word(refusal: u8, byte: u8, taken: usize, register: u8, written: u8) -> u64
    requires { taken < words }
    ensures { ModrmHeld (modrm_by refusal byte taken register written) result }
{
    (refusal as u64)
        + FROM_1 * (byte as u64)
        + FROM_2 * (taken as u64)
        + FROM_4 * (register as u64)
        + FROM_5 * (written as u64)
}

fn modrm_record(read: Read<WrittenModRM>) -> [u64; 2]
    requires { (read_values read).taken < words }
    ensures { ModrmWritten (modrm_of read) result }
{
    match read {
        Ok(modrm) => {
            let WrittenModRM {
                mrrm,
                byte,
                written,
            } = modrm.value;
            [
                modrm_word(0, byte, modrm.taken, mrrm.register.into(), written),
                named_word(mrrm.register_or_memory),
            ]
        }
        Err(stop) => {
            let refusal = stop.refusal;
            [
                modrm_word(refusal.number(), refusal.byte(), stop.taken, 0, 0),
                0,
            ]
        }
    }
}

// Writes the record of a ModRM.
pub fn mrc_mrrm(s: &[u8], at: usize, out: &mut [u64; 2])
    ensures { ModrmWritten (modrm_of (mrrm_read (read_at a_modrm s.now at))) out.new }
{
    *out = modrm_record(read_mrrm(s, at));
}
