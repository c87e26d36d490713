// The form of each of the 256 first bytes, in each reading.
ghost use Rattle.std.specs.Prelude.{◌≡◌, ℕ};
ghost use Rattle.mrc_instruction.specs.declared.instruction.Reach.TheVariants.{Near};
ghost use Rattle.mrc_rules.specs.Forms.{reaching};
ghost use Rattle.mrc_rules.specs.Table.{returned as returned_in, escaped as escaped_in};
ghost use Rattle.mrc_decoder.specs.Form.{reads, meant, meaning_of};

use mrc_forms::groups::{GROUP_80, GROUP_C6, GROUP_ESC, GROUP_FE};
use mrc_instruction::instruction::Reach;
use mrc_instruction::operand::OperandSize;
use mrc_instruction::operation::Operation;
use mrc_instruction::reading::Reading;

// What a first byte is: a prefix, or an opcode whose form has the name of its function, with what the opcode says of it. The forms with a ModRM
// share its reader, and the rarer ones that read nothing stand together. The forms are cases and not functions as values, since `form_of` hands them
// out, which the gate refuses of function pointers and closures; that an opcode is told by single values and ranges is one of the forms by place
// (docs/PROMISES.md). A group is the number that the forms on a group take (mrc_forms/src/groups.rt).
#[derive(Clone, Copy, Debug, PartialEq, Eq)]
pub enum Form {
    Override,
    Repeat,
    Invalid,
    OnRegister(Operation),
    OnImmediate(Operation, OperandSize, Reach),
    OnDisplacement(Operation, OperandSize, Reach),
    Far(Operation),
    Escape,
    InPort,
    OutPort,
    RegisterAndImmediate,
    AccumulatorAndDirect,
    ImmediateToAccumulator(Operation),
    OpcodeAlone(OpcodeAlone),
    WithModRM(WithModRM, OperandSize),
}

#[derive(Clone, Copy, Debug, PartialEq, Eq)]
pub enum OpcodeAlone {
    Bare(Operation),
    Return(Reach),
    OnSegment(Operation),
    Exchange,
    InDx,
    OutDx,
}

#[derive(Clone, Copy, Debug, PartialEq, Eq)]
pub enum WithModRM {
    Pop,
    OnRegisterOrMemory(u8),
    GroupF6,
    RmReg(Operation),
    RegRm(Operation),
    RmSegment,
    SegmentRm,
    ImmediateToRegisterOrMemory(u8),
    Group83,
    ShiftByImmediate,
    ShiftByOne,
    ShiftByCl,
}

// C2: a displacement, and in reading 2 an immediate.
fn returned(reading: Reading) -> Form
    ensures { (opcode : ℕ) → meant result opcode ≡ reads (reaching Near (returned_in reading)) }
{
    match reading {
        Reading::One => Form::OnDisplacement(Operation::RET, OperandSize::Word, Reach::Near),
        Reading::Two => Form::OnImmediate(Operation::RET, OperandSize::Word, Reach::Near),
    }
}

// D8 to DF: a byte, and in reading 2 a whole ModRM.
fn escaped(reading: Reading) -> Form
    ensures { (opcode : ℕ) → meant result opcode ≡ reads (escaped_in reading) }
{
    match reading {
        Reading::One => Form::Escape,
        Reading::Two => Form::WithModRM(
            WithModRM::OnRegisterOrMemory(GROUP_ESC),
            OperandSize::Word,
        ),
    }
}

// The single bytes first, then the ranges. A run of bytes is a range once compiled, which is tested last; so the frequent ones stand even and odd,
// or alone, and find their form in the table of single bytes.
pub fn form_of(opcode: u8, reading: Reading) -> Form
    ensures { meant result opcode ≡ meaning_of reading opcode }
{
    match opcode {
        0x00 => Form::WithModRM(WithModRM::RmReg(Operation::ADD), OperandSize::Byte),
        0x01 => Form::WithModRM(WithModRM::RmReg(Operation::ADD), OperandSize::Word),
        0x02 => Form::WithModRM(WithModRM::RegRm(Operation::ADD), OperandSize::Byte),
        0x03 => Form::WithModRM(WithModRM::RegRm(Operation::ADD), OperandSize::Word),
        0x04 => Form::ImmediateToAccumulator(Operation::ADD),
        0x05 => Form::ImmediateToAccumulator(Operation::ADD),
        0x06 | 0x0E | 0x16 | 0x1E => Form::OpcodeAlone(OpcodeAlone::OnSegment(Operation::PUSH)),
        0x07 | 0x0F | 0x17 | 0x1F => Form::OpcodeAlone(OpcodeAlone::OnSegment(Operation::POP)),
        0x08 => Form::WithModRM(WithModRM::RmReg(Operation::OR), OperandSize::Byte),
        0x09 => Form::WithModRM(WithModRM::RmReg(Operation::OR), OperandSize::Word),
        0x0A => Form::WithModRM(WithModRM::RegRm(Operation::OR), OperandSize::Byte),
        0x0B => Form::WithModRM(WithModRM::RegRm(Operation::OR), OperandSize::Word),
        0x0C => Form::ImmediateToAccumulator(Operation::OR),
        0x0D => Form::ImmediateToAccumulator(Operation::OR),
        0x10 => Form::WithModRM(WithModRM::RmReg(Operation::ADC), OperandSize::Byte),
        0x11 => Form::WithModRM(WithModRM::RmReg(Operation::ADC), OperandSize::Word),
        0x12 => Form::WithModRM(WithModRM::RegRm(Operation::ADC), OperandSize::Byte),
        0x13 => Form::WithModRM(WithModRM::RegRm(Operation::ADC), OperandSize::Word),
        0x14 => Form::ImmediateToAccumulator(Operation::ADC),
        0x15 => Form::ImmediateToAccumulator(Operation::ADC),
        0x18 => Form::WithModRM(WithModRM::RmReg(Operation::SBB), OperandSize::Byte),
        0x19 => Form::WithModRM(WithModRM::RmReg(Operation::SBB), OperandSize::Word),
        0x1A => Form::WithModRM(WithModRM::RegRm(Operation::SBB), OperandSize::Byte),
        0x1B => Form::WithModRM(WithModRM::RegRm(Operation::SBB), OperandSize::Word),
        0x1C => Form::ImmediateToAccumulator(Operation::SBB),
        0x1D => Form::ImmediateToAccumulator(Operation::SBB),
        0x20 => Form::WithModRM(WithModRM::RmReg(Operation::AND), OperandSize::Byte),
        0x21 => Form::WithModRM(WithModRM::RmReg(Operation::AND), OperandSize::Word),
        0x22 => Form::WithModRM(WithModRM::RegRm(Operation::AND), OperandSize::Byte),
        0x23 => Form::WithModRM(WithModRM::RegRm(Operation::AND), OperandSize::Word),
        0x24 => Form::ImmediateToAccumulator(Operation::AND),
        0x25 => Form::ImmediateToAccumulator(Operation::AND),
        0x26 | 0x2E | 0x36 | 0x3E => Form::Override,
        0x27 => Form::OpcodeAlone(OpcodeAlone::Bare(Operation::DAA)),
        0x28 => Form::WithModRM(WithModRM::RmReg(Operation::SUB), OperandSize::Byte),
        0x29 => Form::WithModRM(WithModRM::RmReg(Operation::SUB), OperandSize::Word),
        0x2A => Form::WithModRM(WithModRM::RegRm(Operation::SUB), OperandSize::Byte),
        0x2B => Form::WithModRM(WithModRM::RegRm(Operation::SUB), OperandSize::Word),
        0x2C => Form::ImmediateToAccumulator(Operation::SUB),
        0x2D => Form::ImmediateToAccumulator(Operation::SUB),
        0x2F => Form::OpcodeAlone(OpcodeAlone::Bare(Operation::DAS)),
        0x30 => Form::WithModRM(WithModRM::RmReg(Operation::XOR), OperandSize::Byte),
        0x31 => Form::WithModRM(WithModRM::RmReg(Operation::XOR), OperandSize::Word),
        0x32 => Form::WithModRM(WithModRM::RegRm(Operation::XOR), OperandSize::Byte),
        0x33 => Form::WithModRM(WithModRM::RegRm(Operation::XOR), OperandSize::Word),
        0x34 => Form::ImmediateToAccumulator(Operation::XOR),
        0x35 => Form::ImmediateToAccumulator(Operation::XOR),
        0x37 => Form::OpcodeAlone(OpcodeAlone::Bare(Operation::AAA)),
        0x38 => Form::WithModRM(WithModRM::RmReg(Operation::CMP), OperandSize::Byte),
        0x39 => Form::WithModRM(WithModRM::RmReg(Operation::CMP), OperandSize::Word),
        0x3A => Form::WithModRM(WithModRM::RegRm(Operation::CMP), OperandSize::Byte),
        0x3B => Form::WithModRM(WithModRM::RegRm(Operation::CMP), OperandSize::Word),
        0x3C => Form::ImmediateToAccumulator(Operation::CMP),
        0x3D => Form::ImmediateToAccumulator(Operation::CMP),
        0x3F => Form::OpcodeAlone(OpcodeAlone::Bare(Operation::AAS)),
        0x40 | 0x42 | 0x44 | 0x46 => Form::OnRegister(Operation::INC),
        0x41 | 0x43 | 0x45 | 0x47 => Form::OnRegister(Operation::INC),
        0x48 | 0x4A | 0x4C | 0x4E => Form::OnRegister(Operation::DEC),
        0x49 | 0x4B | 0x4D | 0x4F => Form::OnRegister(Operation::DEC),
        0x50 | 0x52 | 0x54 | 0x56 => Form::OnRegister(Operation::PUSH),
        0x51 | 0x53 | 0x55 | 0x57 => Form::OnRegister(Operation::PUSH),
        0x58 | 0x5A | 0x5C | 0x5E => Form::OnRegister(Operation::POP),
        0x59 | 0x5B | 0x5D | 0x5F => Form::OnRegister(Operation::POP),
        0x70 => Form::OnDisplacement(Operation::JO, OperandSize::Byte, Reach::Neither),
        0x71 => Form::OnDisplacement(Operation::JNO, OperandSize::Byte, Reach::Neither),
        0x72 => Form::OnDisplacement(Operation::JB, OperandSize::Byte, Reach::Neither),
        0x73 => Form::OnDisplacement(Operation::JNB, OperandSize::Byte, Reach::Neither),
        0x74 => Form::OnDisplacement(Operation::JE, OperandSize::Byte, Reach::Neither),
        0x75 => Form::OnDisplacement(Operation::JNE, OperandSize::Byte, Reach::Neither),
        0x76 => Form::OnDisplacement(Operation::JBE, OperandSize::Byte, Reach::Neither),
        0x77 => Form::OnDisplacement(Operation::JNBE, OperandSize::Byte, Reach::Neither),
        0x78 => Form::OnDisplacement(Operation::JS, OperandSize::Byte, Reach::Neither),
        0x79 => Form::OnDisplacement(Operation::JNS, OperandSize::Byte, Reach::Neither),
        0x7A => Form::OnDisplacement(Operation::JP, OperandSize::Byte, Reach::Neither),
        0x7B => Form::OnDisplacement(Operation::JNP, OperandSize::Byte, Reach::Neither),
        0x7C => Form::OnDisplacement(Operation::JL, OperandSize::Byte, Reach::Neither),
        0x7D => Form::OnDisplacement(Operation::JNL, OperandSize::Byte, Reach::Neither),
        0x7E => Form::OnDisplacement(Operation::JLE, OperandSize::Byte, Reach::Neither),
        0x7F => Form::OnDisplacement(Operation::JNLE, OperandSize::Byte, Reach::Neither),
        0x80 | 0x82 => Form::WithModRM(
            WithModRM::ImmediateToRegisterOrMemory(GROUP_80),
            OperandSize::Byte,
        ),
        0x81 => Form::WithModRM(
            WithModRM::ImmediateToRegisterOrMemory(GROUP_80),
            OperandSize::Word,
        ),
        0x83 => Form::WithModRM(WithModRM::Group83, OperandSize::Word),
        0x84 => Form::WithModRM(WithModRM::RmReg(Operation::TEST), OperandSize::Byte),
        0x85 => Form::WithModRM(WithModRM::RmReg(Operation::TEST), OperandSize::Word),
        0x86 => Form::WithModRM(WithModRM::RmReg(Operation::XCHG), OperandSize::Byte),
        0x87 => Form::WithModRM(WithModRM::RmReg(Operation::XCHG), OperandSize::Word),
        0x88 => Form::WithModRM(WithModRM::RmReg(Operation::MOV), OperandSize::Byte),
        0x89 => Form::WithModRM(WithModRM::RmReg(Operation::MOV), OperandSize::Word),
        0x8A => Form::WithModRM(WithModRM::RegRm(Operation::MOV), OperandSize::Byte),
        0x8B => Form::WithModRM(WithModRM::RegRm(Operation::MOV), OperandSize::Word),
        0x8C => Form::WithModRM(WithModRM::RmSegment, OperandSize::Word),
        0x8D => Form::WithModRM(WithModRM::RegRm(Operation::LEA), OperandSize::Word),
        0x8E => Form::WithModRM(WithModRM::SegmentRm, OperandSize::Word),
        0x8F => Form::WithModRM(WithModRM::Pop, OperandSize::Word),
        0x90 => Form::OpcodeAlone(OpcodeAlone::Bare(Operation::NOP)),
        0x91 | 0x93 | 0x95 | 0x97 => Form::OpcodeAlone(OpcodeAlone::Exchange),
        0x92 | 0x94 | 0x96 => Form::OpcodeAlone(OpcodeAlone::Exchange),
        0x98 => Form::OpcodeAlone(OpcodeAlone::Bare(Operation::CBW)),
        0x99 => Form::OpcodeAlone(OpcodeAlone::Bare(Operation::CWD)),
        0x9A | 0xEA => {
            if opcode == 0x9A {
                Form::Far(Operation::CALL)
            } else {
                Form::Far(Operation::JMP)
            }
        }
        0x9B => Form::OpcodeAlone(OpcodeAlone::Bare(Operation::WAIT)),
        0x9C => Form::OpcodeAlone(OpcodeAlone::Bare(Operation::PUSHF)),
        0x9D => Form::OpcodeAlone(OpcodeAlone::Bare(Operation::POPF)),
        0x9E => Form::OpcodeAlone(OpcodeAlone::Bare(Operation::SAHF)),
        0x9F => Form::OpcodeAlone(OpcodeAlone::Bare(Operation::LAHF)),
        0xA0 | 0xA2 => Form::AccumulatorAndDirect,
        0xA1 | 0xA3 => Form::AccumulatorAndDirect,
        0xA4 => Form::OpcodeAlone(OpcodeAlone::Bare(Operation::MOVSB)),
        0xA5 => Form::OpcodeAlone(OpcodeAlone::Bare(Operation::MOVSW)),
        0xA6 => Form::OpcodeAlone(OpcodeAlone::Bare(Operation::CMPSB)),
        0xA7 => Form::OpcodeAlone(OpcodeAlone::Bare(Operation::CMPSW)),
        0xA8 => Form::ImmediateToAccumulator(Operation::TEST),
        0xA9 => Form::ImmediateToAccumulator(Operation::TEST),
        0xAA => Form::OpcodeAlone(OpcodeAlone::Bare(Operation::STOSB)),
        0xAB => Form::OpcodeAlone(OpcodeAlone::Bare(Operation::STOSW)),
        0xAC => Form::OpcodeAlone(OpcodeAlone::Bare(Operation::LODSB)),
        0xAD => Form::OpcodeAlone(OpcodeAlone::Bare(Operation::LODSW)),
        0xAE => Form::OpcodeAlone(OpcodeAlone::Bare(Operation::SCASB)),
        0xAF => Form::OpcodeAlone(OpcodeAlone::Bare(Operation::SCASW)),
        0xB0 | 0xB2 | 0xB4 | 0xB6 | 0xB8 | 0xBA | 0xBC | 0xBE => Form::RegisterAndImmediate,
        0xB1 | 0xB3 | 0xB5 | 0xB7 | 0xB9 | 0xBB | 0xBD | 0xBF => Form::RegisterAndImmediate,
        0xC0 => Form::WithModRM(WithModRM::ShiftByImmediate, OperandSize::Byte),
        0xC1 => Form::WithModRM(WithModRM::ShiftByImmediate, OperandSize::Word),
        0xC2 => returned(reading),
        0xC3 => Form::OpcodeAlone(OpcodeAlone::Return(Reach::Near)),
        0xC4 => Form::WithModRM(WithModRM::RegRm(Operation::LES), OperandSize::Word),
        0xC5 => Form::WithModRM(WithModRM::RegRm(Operation::LDS), OperandSize::Word),
        0xC6 => Form::WithModRM(
            WithModRM::ImmediateToRegisterOrMemory(GROUP_C6),
            OperandSize::Byte,
        ),
        0xC7 => Form::WithModRM(
            WithModRM::ImmediateToRegisterOrMemory(GROUP_C6),
            OperandSize::Word,
        ),
        0xCA => Form::OnImmediate(Operation::RET, OperandSize::Word, Reach::Far),
        0xCB => Form::OpcodeAlone(OpcodeAlone::Return(Reach::Far)),
        0xCC => Form::OpcodeAlone(OpcodeAlone::Bare(Operation::INT3)),
        0xCD => Form::OnImmediate(Operation::INT, OperandSize::Byte, Reach::Neither),
        0xCE => Form::OpcodeAlone(OpcodeAlone::Bare(Operation::INTO)),
        0xCF => Form::OpcodeAlone(OpcodeAlone::Bare(Operation::IRET)),
        0xD0 => Form::WithModRM(WithModRM::ShiftByOne, OperandSize::Byte),
        0xD1 => Form::WithModRM(WithModRM::ShiftByOne, OperandSize::Word),
        0xD2 => Form::WithModRM(WithModRM::ShiftByCl, OperandSize::Byte),
        0xD3 => Form::WithModRM(WithModRM::ShiftByCl, OperandSize::Word),
        0xD4 => Form::OnImmediate(Operation::AAM, OperandSize::Byte, Reach::Neither),
        0xD5 => Form::OnImmediate(Operation::AAD, OperandSize::Byte, Reach::Neither),
        0xD6 => Form::OpcodeAlone(OpcodeAlone::Bare(Operation::SALC)),
        0xD7 => Form::OpcodeAlone(OpcodeAlone::Bare(Operation::XLATB)),
        0xE0 => Form::OnDisplacement(Operation::LOOPNZ, OperandSize::Byte, Reach::Neither),
        0xE1 => Form::OnDisplacement(Operation::LOOPZ, OperandSize::Byte, Reach::Neither),
        0xE2 => Form::OnDisplacement(Operation::LOOP, OperandSize::Byte, Reach::Neither),
        0xE3 => Form::OnDisplacement(Operation::JCXZ, OperandSize::Byte, Reach::Neither),
        0xE8 => Form::OnDisplacement(Operation::CALL, OperandSize::Word, Reach::Near),
        0xE9 => Form::OnDisplacement(Operation::JMP, OperandSize::Word, Reach::Near),
        0xEB => Form::OnDisplacement(Operation::JMP, OperandSize::Byte, Reach::Near),
        0xF0 => Form::OpcodeAlone(OpcodeAlone::Bare(Operation::LOCK)),
        0xF1 => Form::OpcodeAlone(OpcodeAlone::Bare(Operation::INT1)),
        0xF2 => Form::Repeat,
        0xF3 => Form::Repeat,
        0xF4 => Form::OpcodeAlone(OpcodeAlone::Bare(Operation::HLT)),
        0xF5 => Form::OpcodeAlone(OpcodeAlone::Bare(Operation::CMC)),
        0xF6 => Form::WithModRM(WithModRM::GroupF6, OperandSize::Byte),
        0xF7 => Form::WithModRM(WithModRM::GroupF6, OperandSize::Word),
        0xF8 => Form::OpcodeAlone(OpcodeAlone::Bare(Operation::CLC)),
        0xF9 => Form::OpcodeAlone(OpcodeAlone::Bare(Operation::STC)),
        0xFA => Form::OpcodeAlone(OpcodeAlone::Bare(Operation::CLI)),
        0xFB => Form::OpcodeAlone(OpcodeAlone::Bare(Operation::STI)),
        0xFC => Form::OpcodeAlone(OpcodeAlone::Bare(Operation::CLD)),
        0xFD => Form::OpcodeAlone(OpcodeAlone::Bare(Operation::STD)),
        0x60..=0x6F => Form::Invalid,
        0xC8..=0xC9 => Form::Invalid,
        0xD8..=0xDF => escaped(reading),
        0xE4..=0xE5 => Form::InPort,
        0xE6..=0xE7 => Form::OutPort,
        0xEC..=0xED => Form::OpcodeAlone(OpcodeAlone::InDx),
        0xEE..=0xEF => Form::OpcodeAlone(OpcodeAlone::OutDx),
        0xFE..=0xFF => {
            if opcode == 0xFE {
                Form::WithModRM(WithModRM::OnRegisterOrMemory(GROUP_FE), OperandSize::Byte)
            } else {
                Form::WithModRM(WithModRM::OnRegisterOrMemory(GROUP_FE), OperandSize::Word)
            }
        }
    }
}
