ghost use Rattle.std.specs.Prelude.{◌≡◌, ◌+◌, ◌<◌, ◌^◌, [], ◌∷◌, ◌++◌, length, IfOk};
ghost use Rattle.std.specs.List.{position_from};
ghost use Rattle.std.specs.Ordering.{eq_by_cmp};

use std::alloc::{AllocError, Global};
use std::collections::BTreeMap;
use std::marker::Model;

/// Names of things of one sort, in source order, with their positions by name.
#[derive(Drop)]
pub struct Names<N: Ord> {
    names: Vec<N>,
    positions: BTreeMap<N, u32>,
}

impl<N: Ord> Model for Names<N> {
    ghost use Rattle.std.specs.Prelude.{◌≡◌, List};
    ghost use Rattle.std.specs.Coded.{coded_list};
    ghost use Rattle.std.specs.List.{position_from};
    ghost use Rattle.std.specs.BTreeMap.{get};
    ghost use Rattle.std.specs.Ordering.{eq_by_cmp};

    ghost Value = { List N };

    ghost coded = { coded_list N.code };

    ghost view = { λ s. s.names.items };

    // the position of a name is where it stands first, counted from 1
    ghost invariant = { λ s. (name : N) → get N.cmp s.positions name ≡ position_from (eq_by_cmp N.cmp name) 1 s.names.items };
}

impl<N: Ord + Copy + Drop> Names<N> {
    pub fn new(alloc: Global) -> Names<N>
        ensures { result ≡ [] }
    {
        Names {
            names: Vec::new(alloc),
            positions: BTreeMap::new(alloc),
        }
    }

    /// The position of the first thing with this name, counted from 1.
    pub fn position(&self, name: &N) -> Option<u32>
        ensures { result ≡ position_from (eq_by_cmp N.cmp name.now) 1 self.now }
    {
        self.positions.get(name).copied()
    }

    /// One name more.
    pub fn with(self, name: N) -> Result<Names<N>, AllocError>
        requires { length self + 1 < 2 ^ 32 }
        ensures { IfOk result (λ more. more ≡ self ++ name ∷ []) }
    {
        let known = self.position(&name).is_some();
        let Names {
            mut names,
            mut positions,
        } = self;
        names.push(name)?;
        if !known {
            positions.insert(name, names.len() as u32)?;
        }
        Ok(Names { names, positions })
    }
}
