use crate::place::Place;
use fb_base::{List, MethodName};
use std::alloc::{AllocError, AllocFailed};
use std::fmt;

/// The rule that a source breaks.
#[derive(Drop, PartialEq, Eq)]
pub enum CheckRule {
    /// An earlier service, method of the service, parameter or variable in scope has this name.
    DuplicateName,
    /// No variable in scope has this name.
    UnknownName,
    /// There is no such service, or no such method of it.
    UnknownCallee,
    /// An operand, argument, condition, target or reply has another kind than is wanted there.
    WrongKind,
    /// A call has fewer or more arguments than its method has parameters.
    WrongCount,
    /// A method's block doesn't end: none of its statements is a return, a fail or an `if` whose two branches end.
    MissingEnd,
    /// A `break` stands in no loop of its body.
    BreakOutside,
    /// What only a test may have stands in a method.
    TestOnly,
    /// What only a method may have stands in a test.
    MethodOnly,
    /// These methods call each other in a cycle: each calls the next, and the last one the first.
    ///
    /// It is the shortest cycle of the first method in source order that is on one, and begins with that method; of
    /// several it is the one whose methods come first in source order, compared one by one.
    Cycle(List<MethodName>),
    /// The longest chain of calls below a method has 32 calls or more.
    TooDeepCalls,
}

impl CheckRule {
    ghost use Rattle.std.specs.Prelude.{◌≡◌};
    ghost use Rattle.fb_check.specs.Rules.{rule_name};

    /// The name of the rule, as it is printed.
    pub fn name(&self) -> &'static str
        ensures { result.now ≡ rule_name self.now }
    {
        match self {
            CheckRule::DuplicateName => "DuplicateName",
            CheckRule::UnknownName => "UnknownName",
            CheckRule::UnknownCallee => "UnknownCallee",
            CheckRule::WrongKind => "WrongKind",
            CheckRule::WrongCount => "WrongCount",
            CheckRule::MissingEnd => "MissingEnd",
            CheckRule::BreakOutside => "BreakOutside",
            CheckRule::TestOnly => "TestOnly",
            CheckRule::MethodOnly => "MethodOnly",
            CheckRule::Cycle(_) => "Cycle",
            CheckRule::TooDeepCalls => "TooDeepCalls",
        }
    }
}

impl fmt::Debug for CheckRule {
    fn fmt<W: fmt::Write>(&self, f: &mut fmt::Formatter<W>) -> fmt::Result {
        f.write_str(self.name())
    }
}

/// Why a source isn't accepted.
#[derive(Debug, Drop)]
pub enum CheckError {
    /// The first rule that it breaks, and where.
    Refused { place: Place, rule: CheckRule },
    Memory,
}

impl From<AllocError> for CheckError {
    ghost use Rattle.std.specs.Prelude.{◌≡◌};
    ghost use Rattle.fb_check.specs.declared.error.CheckError.TheVariants.{Memory};

    ghost from_gives = { λ _ e. e ≡ Memory };

    fn from(_error: AllocError) -> CheckError {
        CheckError::Memory
    }
}

impl<T: Drop> From<AllocFailed<T>> for CheckError {
    ghost use Rattle.std.specs.Prelude.{◌≡◌};
    ghost use Rattle.fb_check.specs.declared.error.CheckError.TheVariants.{Memory};

    ghost from_gives = { λ _ e. e ≡ Memory };

    fn from(_error: AllocFailed<T>) -> CheckError {
        CheckError::Memory
    }
}
