ghost use Rattle.std.specs.Prelude.{◌≡◌, ◌≤◌};
ghost use Rattle.fb_eval.specs.Units.{most_units, TakesUnits};

use crate::stop::Exhausted;
use std::marker::Model;

/// The units that an evaluation may still take, at most 1,000,000.
#[derive(Drop)]
pub struct Fuel {
    units: u64,
}

impl Model for Fuel {
    ghost use Rattle.std.specs.Prelude.{ℕ, ◌≤◌};
    ghost use Rattle.fb_eval.specs.Units.{most_units};

    ghost Value = { ℕ };

    ghost view = { λ f. f.units };

    ghost invariant = { λ f. f.units ≤ most_units };
}

impl Fuel {
    pub fn of(units: u64) -> Fuel
        requires { units ≤ most_units }
        ensures { result ≡ units }
    {
        Fuel { units }
    }

    /// What holds of any fuel.
    pub(crate) fn proper(&self)
        ensures { self.now ≤ most_units }
    {
        let _units = self.units;
    }

    /// The units that are left.
    pub fn left(&self) -> u64
        ensures left { result ≡ self.now }
        ensures most { result ≤ most_units }
    {
        self.units
    }

    /// Takes so many units, or none where fewer are left.
    pub(crate) fn take(&mut self, units: u64) -> Result<(), Exhausted>
        ensures { TakesUnits units self.old self.new result }
    {
        if self.units < units {
            return Err(Exhausted);
        }
        self.units -= units;
        Ok(())
    }
}
