//! Tables with rows of cells.
ghost use Rattle.std.specs.Prelude.{◌≡◌, ◌&&◌, Bool, Some, if◌then◌else◌, OnOk, OnErr};
ghost use Rattle.std.specs.Map.{IsKeyTest};
ghost use Rattle.fb_store.specs.Tables.{found_in};

use indexmap::IndexMap;
use std::alloc::{AllocError, Global};
use std::hash::Hash;

/// Writes a number into a cell of a row. Where there is no memory, each look-up gives what it gave.
pub fn put<K: Eq + Hash + Drop, J: Eq + Hash + Drop>(
    alloc: Global,
    table: &mut IndexMap<K, IndexMap<J, usize>>,
    row: K,
    cell: J,
    id: usize,
) -> Result<(), AllocError>
    ensures added { OnOk result ((r : K) (c : J → Bool) → IsKeyTest J.eq c →
        found_in (K.eq r) c table.new ≡ (if K.eq row r && c cell then Some id else found_in (K.eq r) c table.old)) }
    ensures err { OnErr result ((r : K) (c : J → Bool) → IsKeyTest J.eq c →
        found_in (K.eq r) c table.new ≡ found_in (K.eq r) c table.old) }
{
    match table.get_mut(&row) {
        Some(cells) => {
            cells.insert(cell, id)?;
            Ok(())
        }
        None => {
            let mut cells = IndexMap::new(alloc);
            cells.insert(cell, id)?;
            table.insert(row, cells)?;
            Ok(())
        }
    }
}
