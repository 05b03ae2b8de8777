//! The text of an instruction.

ghost use Rattle.std.specs.Prelude.{◌≡◌, ◌<◌, ◌≤◌, ◌+◌, ◌++◌, length, codes};
ghost use Rattle.arrayvec.specs.ArrayString.{array_string_len};
ghost use Rattle.exact_text.specs.Hex.{byte_text, word_text};
ghost use Rattle.opcode_table.specs.Text.{offset_text, operand8_text, register16_text, stack_register16_text, indirect_text, condition_text, operation_text, accumulator_text, shift_text, bit_text, text_of};

use crate::instruction::{
    AccumulatorOperation, Condition, Indirect, Instr, Operand8, Operation, Register16, Shift,
    StackRegister16,
};
use arrayvec::ArrayString;
use exact_text::{byte_digits, word_digits};

/// Room for the text of any instruction.
pub type Text = ArrayString<16>;

#[tactic(auto, unfolding(crate::specs::Text::offset_text))]
fn push_offset(text: &mut Text, offset: u8)
    requires { array_string_len text.old + 3 ≤ 16 }
    ensures { text.new.bytes ≡ text.old.bytes ++ offset_text offset }
{
    if offset < 128 {
        text.push_str("+");
        text.push_str(byte_digits(offset).as_str());
    } else {
        text.push_str("-");
        text.push_str(byte_digits(255 - offset + 1).as_str());
    }
}

#[tactic(auto, unfolding(crate::specs::Text::operand8_text))]
fn operand8_name(operand: Operand8) -> &'static str
    ensures text { result.now ≡ operand8_text operand }
    ensures len { length result.now ≤ 4 }
{
    match operand {
        Operand8::B => "B",
        Operand8::C => "C",
        Operand8::D => "D",
        Operand8::E => "E",
        Operand8::H => "H",
        Operand8::L => "L",
        Operand8::AtHl => "(HL)",
        Operand8::A => "A",
    }
}

#[tactic(auto, unfolding(crate::specs::Text::register16_text))]
fn register16_name(register: Register16) -> &'static str
    ensures text { result.now ≡ register16_text register }
    ensures len { length result.now ≤ 2 }
{
    match register {
        Register16::Bc => "BC",
        Register16::De => "DE",
        Register16::Hl => "HL",
        Register16::Sp => "SP",
    }
}

#[tactic(auto, unfolding(crate::specs::Text::stack_register16_text))]
fn stack_register16_name(stack_register16: StackRegister16) -> &'static str
    ensures text { result.now ≡ stack_register16_text stack_register16 }
    ensures len { length result.now ≤ 2 }
{
    match stack_register16 {
        StackRegister16::Bc => "BC",
        StackRegister16::De => "DE",
        StackRegister16::Hl => "HL",
        StackRegister16::Af => "AF",
    }
}

#[tactic(auto, unfolding(crate::specs::Text::indirect_text))]
fn indirect_name(indirect: Indirect) -> &'static str
    ensures text { result.now ≡ indirect_text indirect }
    ensures len { length result.now ≤ 5 }
{
    match indirect {
        Indirect::Bc => "(BC)",
        Indirect::De => "(DE)",
        Indirect::HlUp => "(HL+)",
        Indirect::HlDown => "(HL-)",
    }
}

#[tactic(auto, unfolding(crate::specs::Text::condition_text))]
fn condition_name(condition: Condition) -> &'static str
    ensures text { result.now ≡ condition_text condition }
    ensures len { length result.now ≤ 2 }
{
    match condition {
        Condition::NotZero => "NZ",
        Condition::Zero => "Z",
        Condition::NotCarry => "NC",
        Condition::Carry => "C",
    }
}

#[tactic(auto, unfolding(crate::specs::Text::operation_text))]
fn operation_name(operation: Operation) -> &'static str
    ensures text { result.now ≡ operation_text operation }
    ensures len { length result.now ≤ 6 }
{
    match operation {
        Operation::Add => "ADD A,",
        Operation::AddCarry => "ADC A,",
        Operation::Subtract => "SUB A,",
        Operation::SubtractCarry => "SBC A,",
        Operation::And => "AND A,",
        Operation::Xor => "XOR A,",
        Operation::Or => "OR A,",
        Operation::Compare => "CP A,",
    }
}

#[tactic(auto, unfolding(crate::specs::Text::accumulator_text))]
fn accumulator_name(accumulator: AccumulatorOperation) -> &'static str
    ensures text { result.now ≡ accumulator_text accumulator }
    ensures len { length result.now ≤ 4 }
{
    match accumulator {
        AccumulatorOperation::RotateLeft => "RLCA",
        AccumulatorOperation::RotateRight => "RRCA",
        AccumulatorOperation::RotateLeftThrough => "RLA",
        AccumulatorOperation::RotateRightThrough => "RRA",
        AccumulatorOperation::DecimalAdjust => "DAA",
        AccumulatorOperation::Complement => "CPL",
        AccumulatorOperation::SetCarry => "SCF",
        AccumulatorOperation::FlipCarry => "CCF",
    }
}

#[tactic(auto, unfolding(crate::specs::Text::shift_text))]
fn shift_name(shift: Shift) -> &'static str
    ensures text { result.now ≡ shift_text shift }
    ensures len { length result.now ≤ 5 }
{
    match shift {
        Shift::RotateLeft => "RLC ",
        Shift::RotateRight => "RRC ",
        Shift::RotateLeftThrough => "RL ",
        Shift::RotateRightThrough => "RR ",
        Shift::ShiftLeftArithmetic => "SLA ",
        Shift::ShiftRightArithmetic => "SRA ",
        Shift::Swap => "SWAP ",
        Shift::ShiftRightLogical => "SRL ",
    }
}

fn plain(name: &str) -> Text
    requires { length name.now ≤ 16 }
    ensures { result.bytes ≡ name.now }
{
    let mut text = Text::new();
    text.push_str(name);
    text
}

fn with_operand(name: &str, operand: &str) -> Text
    requires { length name.now + length operand.now ≤ 16 }
    ensures bytes { result.bytes ≡ name.now ++ operand.now }
    ensures len { array_string_len result ≡ length name.now + length operand.now }
{
    let mut text = Text::new();
    text.push_str(name);
    text.push_str(operand);
    text
}

fn with_operands(name: &str, first: &str, second: &str) -> Text
    requires { length name.now + length first.now + 1 + length second.now ≤ 16 }
    ensures { result.bytes ≡ name.now ++ first.now ++ codes "," ++ second.now }
{
    let mut text = with_operand(name, first);
    text.push_str(",");
    text.push_str(second);
    text
}

fn with_byte(name: &str, byte: u8) -> Text
    requires { length name.now ≤ 14 }
    ensures { result.bytes ≡ name.now ++ byte_text byte }
{
    let mut text = Text::new();
    text.push_str(name);
    text.push_str(byte_digits(byte).as_str());
    text
}

fn with_word(name: &str, word: u16) -> Text
    requires { length name.now ≤ 12 }
    ensures { result.bytes ≡ name.now ++ word_text word }
{
    let mut text = Text::new();
    text.push_str(name);
    text.push_str(word_digits(word).as_str());
    text
}

fn with_offset(name: &str, offset: u8) -> Text
    requires { length name.now ≤ 13 }
    ensures { result.bytes ≡ name.now ++ offset_text offset }
{
    let mut text = Text::new();
    text.push_str(name);
    push_offset(&mut text, offset);
    text
}

fn around_byte(start: &str, byte: u8, end: &str) -> Text
    requires { length start.now + 2 + length end.now ≤ 16 }
    ensures { result.bytes ≡ start.now ++ byte_text byte ++ end.now }
{
    let mut text = Text::new();
    text.push_str(start);
    text.push_str(byte_digits(byte).as_str());
    text.push_str(end);
    text
}

fn around_word(start: &str, word: u16, end: &str) -> Text
    requires { length start.now + 4 + length end.now ≤ 16 }
    ensures { result.bytes ≡ start.now ++ word_text word ++ end.now }
{
    let mut text = Text::new();
    text.push_str(start);
    text.push_str(word_digits(word).as_str());
    text.push_str(end);
    text
}

fn with_operand_and_byte(name: &str, operand: &str, byte: u8) -> Text
    requires { length name.now + length operand.now + 3 ≤ 16 }
    ensures { result.bytes ≡ name.now ++ operand.now ++ codes "," ++ byte_text byte }
{
    let mut text = with_operand(name, operand);
    text.push_str(",");
    text.push_str(byte_digits(byte).as_str());
    text
}

fn with_operand_and_word(name: &str, operand: &str, word: u16) -> Text
    requires { length name.now + length operand.now + 5 ≤ 16 }
    ensures { result.bytes ≡ name.now ++ operand.now ++ codes "," ++ word_text word }
{
    let mut text = with_operand(name, operand);
    text.push_str(",");
    text.push_str(word_digits(word).as_str());
    text
}

fn with_operand_and_offset(name: &str, operand: &str, offset: u8) -> Text
    requires { length name.now + length operand.now + 4 ≤ 16 }
    ensures { result.bytes ≡ name.now ++ operand.now ++ codes "," ++ offset_text offset }
{
    let mut text = with_operand(name, operand);
    text.push_str(",");
    push_offset(&mut text, offset);
    text
}

fn with_bit(name: &str, bit: u8, operand: Operand8) -> Text
    requires { length name.now ≤ 4 }
    ensures { result.bytes ≡ name.now ++ bit_text bit ++ codes "," ++ operand8_text operand }
{
    let mut text = Text::new();
    text.push_str(name);
    text.push(char::from(48 + bit % 8));
    text.push_str(",");
    text.push_str(operand8_name(operand));
    text
}

/// The text of an instruction, as `LD A,(HL+)` or `CALL NZ,0150`.
pub fn write_text(instr: &Instr) -> Text
    ensures { result.bytes ≡ text_of instr.now }
{
    match *instr {
        Instr::Nop => plain("NOP"),
        Instr::StoreSp(address) => around_word("LD (", address, "),SP"),
        Instr::Stop => plain("STOP"),
        Instr::JumpRelative(offset) => with_offset("JR ", offset),
        Instr::JumpRelativeIf(condition, offset) => {
            with_operand_and_offset("JR ", condition_name(condition), offset)
        }
        Instr::LoadRegister16(register, word) => with_operand_and_word(
            "LD ",
            register16_name(register),
            word,
        ),
        Instr::AddHl(register) => with_operand("ADD HL,", register16_name(register)),
        Instr::StoreAccumulator(operand) => around("LD ", indirect_name(operand), ",A"),
        Instr::LoadAccumulator(operand) => with_operand("LD A,", indirect_name(operand)),
        Instr::IncrementRegister16(register) => with_operand("INC ", register16_name(register)),
        Instr::DecrementRegister16(register) => with_operand("DEC ", register16_name(register)),
        Instr::Increment(operand) => with_operand("INC ", operand8_name(operand)),
        Instr::Decrement(operand) => with_operand("DEC ", operand8_name(operand)),
        Instr::LoadByte(operand, byte) => with_operand_and_byte(
            "LD ",
            operand8_name(operand),
            byte,
        ),
        Instr::Accumulator(operation) => plain(accumulator_name(operation)),
        Instr::Load(to, from) => with_operands("LD ", operand8_name(to), operand8_name(from)),
        Instr::Halt => plain("HALT"),
        Instr::Operate(operation, operand) => {
            with_operand(operation_name(operation), operand8_name(operand))
        }
        Instr::OperateByte(operation, byte) => with_byte(operation_name(operation), byte),
        Instr::ReturnIf(condition) => with_operand("RET ", condition_name(condition)),
        Instr::StoreHigh(byte) => around_byte("LDH (", byte, "),A"),
        Instr::AddSp(offset) => with_offset("ADD SP,", offset),
        Instr::LoadHigh(byte) => around_byte("LDH A,(", byte, ")"),
        Instr::LoadHlSp(offset) => with_offset("LD HL,SP", offset),
        Instr::Pop(register) => with_operand("POP ", stack_register16_name(register)),
        Instr::Return => plain("RET"),
        Instr::ReturnFromInterrupt => plain("RETI"),
        Instr::JumpHl => plain("JP HL"),
        Instr::LoadSpHl => plain("LD SP,HL"),
        Instr::JumpIf(condition, address) => {
            with_operand_and_word("JP ", condition_name(condition), address)
        }
        Instr::StoreHighC => plain("LD (C),A"),
        Instr::StoreAt(address) => around_word("LD (", address, "),A"),
        Instr::LoadHighC => plain("LD A,(C)"),
        Instr::LoadAt(address) => around_word("LD A,(", address, ")"),
        Instr::Jump(address) => with_word("JP ", address),
        Instr::DisableInterrupts => plain("DI"),
        Instr::EnableInterrupts => plain("EI"),
        Instr::CallIf(condition, address) => {
            with_operand_and_word("CALL ", condition_name(condition), address)
        }
        Instr::Push(register) => with_operand("PUSH ", stack_register16_name(register)),
        Instr::Call(address) => with_word("CALL ", address),
        Instr::Restart(address) => with_byte("RST ", address),
        Instr::Shift(shift, operand) => with_operand(shift_name(shift), operand8_name(operand)),
        Instr::TestBit(bit, operand) => with_bit("BIT ", bit, operand),
        Instr::ResetBit(bit, operand) => with_bit("RES ", bit, operand),
        Instr::SetBit(bit, operand) => with_bit("SET ", bit, operand),
        Instr::Undefined(opcode) => with_byte("UNDEFINED ", opcode),
    }
}

fn around(start: &str, operand: &str, end: &str) -> Text
    requires { length start.now + length operand.now + length end.now ≤ 16 }
    ensures { result.bytes ≡ start.now ++ operand.now ++ end.now }
{
    let mut text = with_operand(start, operand);
    text.push_str(end);
    text
}
