//! Laws of the definitions. The functions do nothing: the contract of each is a law.
ghost use Rattle.opcode_table.specs.Matrix.{EachOpcodeHasItsRow};

/// Law: each of the 256 opcodes and of the 256 bytes after CB has, whatever stands after it, the text, the length and the M-cycles
/// of its row in the manual's table.
pub fn each_opcode_has_its_row()
    ensures { EachOpcodeHasItsRow }
{}
