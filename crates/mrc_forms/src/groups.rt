// The operations of a group, and how far they go, by reg: a table for each, which one function over all groups would only hold as well.
ghost use Rattle.std.specs.Prelude.{◌≡◌};
ghost use Rattle.mrc_rules.specs.Forms.{arithmetic, shift, group_fe_operation, group_fe_reach, group_f6_operation};
ghost use Rattle.mrc_forms.specs.Groups.{immediate_operation, sole_operation, sole_reach};

use mrc_instruction::instruction::Reach;
use mrc_instruction::operand::OperandSize;
use mrc_instruction::operation::Operation;

// A group goes by its number and not by an enum's case: `immediate_operation`, `sole_operation`, `sole_reach` and the forms on a group promise an answer for
// every number (docs/PROMISES.md), and an enum would ask more of their callers. The three are a test each, with another table and another case for the
// rest, so one function over them would be no plainer.
// 80 to 83, by reg.
pub const GROUP_80: u8 = 0x80;
// C6 and C7: MOV, whatever reg is.
pub const GROUP_C6: u8 = 0xC6;
// FE and FF, by reg.
pub const GROUP_FE: u8 = 0xFE;
// D8 to DF of a whole ModRM: ESC, whatever reg is.
pub const GROUP_ESC: u8 = 0xD8;

// The shifts, by reg.
pub fn group2_operation(bits: u8) -> Operation
    ensures { result ≡ shift bits }
{
    match bits {
        0 => Operation::ROL,
        1 => Operation::ROR,
        2 => Operation::RCL,
        3 => Operation::RCR,
        4 => Operation::SHL,
        5 => Operation::SHR,
        6 => Operation::SHL,
        _ => Operation::SAR,
    }
}

// 80 to 83, by reg.
pub fn group80_operation(bits: u8) -> Operation
    ensures { result ≡ arithmetic bits }
{
    match bits {
        0 => Operation::ADD,
        1 => Operation::OR,
        2 => Operation::ADC,
        3 => Operation::SBB,
        4 => Operation::AND,
        5 => Operation::SUB,
        6 => Operation::XOR,
        _ => Operation::CMP,
    }
}

// The operation of an immediate to a register or memory, by the number that names its group and by reg.
pub fn immediate_operation(group: u8, bits: u8) -> Operation
    ensures { result ≡ immediate_operation group bits }
{
    if group == GROUP_80 {
        group80_operation(bits)
    } else {
        Operation::MOV
    }
}

// F6 and F7, by reg less 2.
pub fn group_f6_operation(bits: u8) -> Operation
    ensures { result ≡ group_f6_operation bits }
{
    match bits {
        0 => Operation::NOT,
        1 => Operation::NEG,
        2 => Operation::MUL,
        3 => Operation::IMUL,
        4 => Operation::DIV,
        _ => Operation::IDIV,
    }
}

// FE and FF, by reg.
pub fn group_fe_operation(bits: u8) -> Operation
    ensures { result ≡ group_fe_operation bits }
{
    match bits {
        0 => Operation::INC,
        1 => Operation::DEC,
        2 => Operation::CALL,
        3 => Operation::CALL,
        4 => Operation::JMP,
        5 => Operation::JMP,
        6 => Operation::PUSH,
        _ => Operation::PUSH,
    }
}

// FE and FF, by reg: how far CALL and JMP go.
pub fn group_fe_reach(size: OperandSize, bits: u8) -> Reach
    ensures { result ≡ group_fe_reach size bits }
{
    match size {
        OperandSize::Byte => match bits {
            0 => Reach::Neither,
            1 => Reach::Neither,
            2 => Reach::Near, // FE /2 CALL
            3 => Reach::Near, // FE /3 CALL
            4 => Reach::Near, // FE /4 JMP
            5 => Reach::Near, // FE /5 JMP
            6 => Reach::Neither,
            _ => Reach::Neither,
        },
        OperandSize::Word => match bits {
            0 => Reach::Neither,
            1 => Reach::Neither,
            2 => Reach::Near, // FF /2 CALL
            3 => Reach::Far, // FF /3 CALL
            4 => Reach::Near, // FF /4 JMP
            5 => Reach::Far, // FF /5 JMP
            6 => Reach::Neither,
            _ => Reach::Neither,
        },
    }
}

// The operation on a register or memory alone, by the number that names its group and by reg.
pub fn sole_operation(group: u8, bits: u8) -> Operation
    ensures { result ≡ sole_operation group bits }
{
    if group == GROUP_FE {
        group_fe_operation(bits)
    } else {
        Operation::ESC
    }
}

// How far it goes.
pub fn sole_reach(group: u8, size: OperandSize, bits: u8) -> Reach
    ensures { result ≡ sole_reach group size bits }
{
    if group == GROUP_FE {
        group_fe_reach(size, bits)
    } else {
        Reach::Neither
    }
}
