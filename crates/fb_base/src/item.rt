//! What may be an item of a list value.
ghost use Rattle.std.specs.Prelude.{◌≡◌, ℕ, ◌<◌};
ghost use Rattle.std.specs.Bool.{Decides};

use crate::duplicate::Duplicate;
use crate::text::Text;

/// A value that a list may hold: an int, a bool or a text.
pub trait Item: Duplicate + Eq {
    /// What it adds to the weight of a list.
    ghost weight: { Self → ℕ };

    /// What holds of each that a program has.
    ghost proper: { Self → Type 0 };

    fn weight(&self) -> u64
        ensures value { result ≡ weight self.now }
        ensures proper { proper self.now };

    ghost weighs: { (x : Self) → 0 < weight x };

    ghost identity: { (x y : Self) → Decides (Self.eq x y) (x ≡ y) };
}

impl Item for i64 {
    ghost use Rattle.std.specs.Prelude.{FitsSigned};
    ghost use Rattle.std.specs.Int.{w64};
    ghost use Rattle.std.proofs.Common.{lit<};
    ghost use Rattle.std.specs.Cmp.{signed_Decides};

    ghost weight = { λ _. 1 };

    ghost proper = { FitsSigned w64 };

    fn weight(&self) -> u64 {
        let _read = *self;
        1
    }

    ghost weighs = { λ _. lit< tt };

    ghost identity = { signed_Decides };
}

impl Item for bool {
    ghost use Rattle.std.proofs.Common.{lit<};
    ghost use Rattle.std.specs.Cmp.{booleans_Decides};

    ghost weight = { λ _. 1 };

    ghost proper = { λ _. Unit {0} };

    fn weight(&self) -> u64 {
        1
    }

    ghost weighs = { λ _. lit< tt };

    ghost identity = { booleans_Decides };
}

impl Item for Text {
    ghost use Rattle.std.specs.Prelude.{◌+◌, length};
    ghost use Rattle.std.proofs.Common.{arith};
    ghost use Rattle.std.proofs.lemmas.Slice.Eq.{bytes_eq-Decides};
    ghost use Rattle.fb_base.specs.Text.{IsText};

    ghost weight = { λ bytes. 1 + length bytes };

    ghost proper = { IsText };

    fn weight(&self) -> u64 {
        self.proper();
        1 + self.bytes().len() as u64
    }

    ghost weighs = { λ bytes. Prim.omega arith };

    ghost identity = { bytes_eq-Decides };
}
