//! The 16-bit registers.

ghost use Rattle.std.specs.Prelude.{◌≡◌};
ghost use Rattle.sm83_processor.specs.RegisterPairs.{register16_value, with_register16, stack_register16_value, with_stack_register16, hl_of, with_hl};

use opcode_table::{Register16, StackRegister16};
use sm83_alu::{Flags, Registers};

fn high(word: u16) -> u8
    ensures { result ≡ word / 256 }
{
    (word / 256) as u8
}

fn low(word: u16) -> u8
    ensures { result ≡ word % 256 }
{
    (word % 256) as u8
}

fn joined(high: u8, low: u8) -> u16
    ensures { result ≡ 256 * high + low }
{
    256 * u16::from(high) + u16::from(low)
}

ghost use Rattle.std.specs.Prelude.{◌+◌, ◌*◌, ◌/◌, ◌%◌};

#[inline(always)]
pub(crate) fn hl(registers: &Registers) -> u16
    ensures { result ≡ hl_of registers.now }
{
    joined(registers.h, registers.l)
}

#[inline(always)]
pub(crate) fn set_hl(registers: &mut Registers, word: u16)
    ensures { registers.new ≡ with_hl word registers.old }
{
    registers.h = high(word);
    registers.l = low(word);
}

#[inline(always)]
pub(crate) fn register16(registers: &Registers, register: Register16) -> u16
    ensures { result ≡ register16_value register registers.now }
{
    match register {
        Register16::Bc => joined(registers.b, registers.c),
        Register16::De => joined(registers.d, registers.e),
        Register16::Hl => joined(registers.h, registers.l),
        Register16::Sp => registers.sp,
    }
}

#[inline(always)]
pub(crate) fn set_register16(registers: &mut Registers, register: Register16, word: u16)
    ensures { registers.new ≡ with_register16 register word registers.old }
{
    match register {
        Register16::Bc => {
            registers.b = high(word);
            registers.c = low(word);
        }
        Register16::De => {
            registers.d = high(word);
            registers.e = low(word);
        }
        Register16::Hl => {
            registers.h = high(word);
            registers.l = low(word);
        }
        Register16::Sp => registers.sp = word,
    }
}

#[inline(always)]
pub(crate) fn stack_register16(registers: &Registers, register: StackRegister16) -> u16
    ensures { result ≡ stack_register16_value register registers.now }
{
    match register {
        StackRegister16::Bc => joined(registers.b, registers.c),
        StackRegister16::De => joined(registers.d, registers.e),
        StackRegister16::Hl => joined(registers.h, registers.l),
        StackRegister16::Af => joined(registers.a, registers.flags.to_byte()),
    }
}

#[inline(always)]
pub(crate) fn set_stack_register16(registers: &mut Registers, register: StackRegister16, word: u16)
    ensures { registers.new ≡ with_stack_register16 register word registers.old }
{
    match register {
        StackRegister16::Bc => {
            registers.b = high(word);
            registers.c = low(word);
        }
        StackRegister16::De => {
            registers.d = high(word);
            registers.e = low(word);
        }
        StackRegister16::Hl => {
            registers.h = high(word);
            registers.l = low(word);
        }
        StackRegister16::Af => {
            registers.a = high(word);
            registers.flags = Flags::from_byte(low(word));
        }
    }
}
