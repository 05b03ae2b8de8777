//! The line of registers.

ghost use Rattle.std.specs.Prelude.{◌≡◌, ◌+◌, ◌≤◌, ◌++◌, length};
ghost use Rattle.arrayvec.specs.ArrayString.{array_string_len};
ghost use Rattle.exact_text.specs.Hex.{byte_text, word_text};
ghost use Rattle.debugger.specs.Registers.{register_line};

use arrayvec::ArrayString;
use exact_text::{byte_digits, word_digits};
use machine::Processor;

/// Room for the line.
pub type RegisterLine = ArrayString<80>;

fn push_byte(line: &mut RegisterLine, name: &str, value: u8)
    requires { array_string_len line.old + length name.now + 2 ≤ 80 }
    ensures text { line.new.bytes ≡ line.old.bytes ++ name.now ++ byte_text value }
    ensures len { array_string_len line.new ≡ array_string_len line.old + length name.now + 2 }
{
    line.push_str(name);
    line.push_str(byte_digits(value).as_str());
}

fn push_word(line: &mut RegisterLine, name: &str, value: u16)
    requires { array_string_len line.old + length name.now + 4 ≤ 80 }
    ensures text { line.new.bytes ≡ line.old.bytes ++ name.now ++ word_text value }
    ensures len { array_string_len line.new ≡ array_string_len line.old + length name.now + 4 }
{
    line.push_str(name);
    line.push_str(word_digits(value).as_str());
}

/// The line of a processor's registers and IME, with its newline.
#[tactic(auto, unfolding(crate::specs::Registers::register_line))]
pub fn register_line<M>(processor: &Processor<M>) -> RegisterLine
    ensures { result.bytes ≡ register_line processor.now }
{
    let registers = &processor.registers;
    let mut text = ArrayString::new();
    push_byte(&mut text, "A=", registers.a);
    push_byte(&mut text, " F=", registers.flags.to_byte());
    push_byte(&mut text, " B=", registers.b);
    push_byte(&mut text, " C=", registers.c);
    push_byte(&mut text, " D=", registers.d);
    push_byte(&mut text, " E=", registers.e);
    push_byte(&mut text, " H=", registers.h);
    push_byte(&mut text, " L=", registers.l);
    push_word(&mut text, " SP=", registers.sp);
    push_word(&mut text, " PC=", registers.pc);
    text.push_str(if processor.state.ime {
        " IME=1\n"
    } else {
        " IME=0\n"
    });
    text
}
