//! Laws of the operators' table, of weights and of kinds: each holds of the definitions that the calls' contracts cite.
ghost use Rattle.fb_base.specs.Laws.{DividesTowardZero, SameIsEqual, HasSomeKind, HasOneKind, SharesKind, BinaryFitsTable, UnaryFitsTable, ListFitsTable, BinaryKeepsProper, UnaryKeepsProper, ListKeepsProper, WeighsWithinBounds};

/// Quotient and remainder make up the dividend, the remainder is less than the divisor, and the quotient is rounded toward zero.
pub fn law_of_division()
    ensures { DividesTowardZero }
{}

/// A value weighs from 1 to 65,536.
pub fn law_of_weights()
    ensures { WeighsWithinBounds }
{}

/// Two values are the same where they are equal.
pub fn law_of_sameness()
    ensures { SameIsEqual }
{}

/// Each value has a kind, and only the empty list has two.
pub fn law_of_kinds()
    ensures some { HasSomeKind }
    ensures one { HasOneKind }
    ensures shared { SharesKind }
{}

/// Operands of the table's kinds give a result of the table's kind.
pub fn law_of_results()
    ensures binary { BinaryFitsTable }
    ensures unary { UnaryFitsTable }
    ensures list { ListFitsTable }
{}

/// The operators make only values that a program may have.
pub fn law_of_proper_values()
    ensures binary { BinaryKeepsProper }
    ensures unary { UnaryKeepsProper }
    ensures list { ListKeepsProper }
{}
