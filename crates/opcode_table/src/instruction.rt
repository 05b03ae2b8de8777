//! The instructions and their operands.

/// An 8-bit operand of three bits: a register, or the byte at HL.
#[derive(Clone, Copy)]
pub enum Operand8 {
    B,
    C,
    D,
    E,
    H,
    L,
    AtHl,
    A,
}

/// A 16-bit register of loads and sums.
#[derive(Clone, Copy)]
pub enum Register16 {
    Bc,
    De,
    Hl,
    Sp,
}

/// A 16-bit register that PUSH and POP move.
#[derive(Clone, Copy)]
pub enum StackRegister16 {
    Bc,
    De,
    Hl,
    Af,
}

/// Where a byte of A lies: the address in BC, DE or HL, which then goes up or down by 1.
#[derive(Clone, Copy)]
pub enum Indirect {
    Bc,
    De,
    HlUp,
    HlDown,
}

/// The condition of a jump, a call or a return.
#[derive(Clone, Copy)]
pub enum Condition {
    NotZero,
    Zero,
    NotCarry,
    Carry,
}

/// The operations of A with a byte.
#[derive(Clone, Copy)]
pub enum Operation {
    Add,
    AddCarry,
    Subtract,
    SubtractCarry,
    And,
    Xor,
    Or,
    Compare,
}

/// The eight operations on A and the flags alone.
#[derive(Clone, Copy)]
pub enum AccumulatorOperation {
    RotateLeft,
    RotateRight,
    RotateLeftThrough,
    RotateRightThrough,
    DecimalAdjust,
    Complement,
    SetCarry,
    FlipCarry,
}

/// The rotations and shifts after CB.
#[derive(Clone, Copy)]
pub enum Shift {
    RotateLeft,
    RotateRight,
    RotateLeftThrough,
    RotateRightThrough,
    ShiftLeftArithmetic,
    ShiftRightArithmetic,
    Swap,
    ShiftRightLogical,
}

/// An instruction with its operands: n8 and e as their byte, n16 as a number (Pan Docs, 'CPU
/// Instruction Set').
#[derive(Clone, Copy)]
pub enum Instr {
    /// NOP
    Nop,
    /// LD (n16),SP
    StoreSp(u16),
    /// STOP
    Stop,
    /// JR e
    JumpRelative(u8),
    /// JR cc,e
    JumpRelativeIf(Condition, u8),
    /// LD rp,n16
    LoadRegister16(Register16, u16),
    /// ADD HL,rp
    AddHl(Register16),
    /// LD (BC),A and its like
    StoreAccumulator(Indirect),
    /// LD A,(BC) and its like
    LoadAccumulator(Indirect),
    /// INC rp
    IncrementRegister16(Register16),
    /// DEC rp
    DecrementRegister16(Register16),
    /// INC r
    Increment(Operand8),
    /// DEC r
    Decrement(Operand8),
    /// LD r,n8
    LoadByte(Operand8, u8),
    /// RLCA, RRCA, RLA, RRA, DAA, CPL, SCF, CCF
    Accumulator(AccumulatorOperation),
    /// LD r,r
    Load(Operand8, Operand8),
    /// HALT
    Halt,
    /// ADD A,r and its like
    Operate(Operation, Operand8),
    /// ADD A,n8 and its like
    OperateByte(Operation, u8),
    /// RET cc
    ReturnIf(Condition),
    /// LDH (n8),A
    StoreHigh(u8),
    /// ADD SP,e
    AddSp(u8),
    /// LDH A,(n8)
    LoadHigh(u8),
    /// LD HL,SP+e
    LoadHlSp(u8),
    /// POP rs
    Pop(StackRegister16),
    /// RET
    Return,
    /// RETI
    ReturnFromInterrupt,
    /// JP HL
    JumpHl,
    /// LD SP,HL
    LoadSpHl,
    /// JP cc,n16
    JumpIf(Condition, u16),
    /// LD (C),A
    StoreHighC,
    /// LD (n16),A
    StoreAt(u16),
    /// LD A,(C)
    LoadHighC,
    /// LD A,(n16)
    LoadAt(u16),
    /// JP n16
    Jump(u16),
    /// DI
    DisableInterrupts,
    /// EI
    EnableInterrupts,
    /// CALL cc,n16
    CallIf(Condition, u16),
    /// PUSH rs
    Push(StackRegister16),
    /// CALL n16
    Call(u16),
    /// RST, with its address
    Restart(u8),
    /// RLC, RRC, RL, RR, SLA, SRA, SWAP, SRL on r
    Shift(Shift, Operand8),
    /// BIT, with the number of the bit
    TestBit(u8, Operand8),
    /// RES, with the number of the bit
    ResetBit(u8, Operand8),
    /// SET, with the number of the bit
    SetBit(u8, Operand8),
    /// One of the eleven opcodes that no instruction has
    Undefined(u8),
}
