//! Laws of the definitions, in the words of what the operations are for.

ghost use Rattle.sm83_alu.specs.Decimal.{AdjustsSums, AdjustsDifferences};

/// DAA after ADD or ADC of two decimal numbers gives their decimal sum, and after SUB or SBC their
/// decimal difference. The call does nothing: its contract is the law.
pub fn decimal_adjust_is_decimal()
    ensures sums { AdjustsSums }
    ensures differences { AdjustsDifferences }
{}
