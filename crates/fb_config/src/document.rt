//! The table that a fault file is, and what stands at its keys.
ghost use Rattle.std.specs.Prelude.{◌≡◌, option_map};
ghost use Rattle.std.specs.Option.{ok_or};
ghost use Rattle.toml.specs.Data.{get_member};
ghost use Rattle.toml.specs.View.{view, table_view};
ghost use Rattle.fb_config.specs.declared.error.FaultsWhy.TheVariants.{NotToml};
ghost use Rattle.fb_config.specs.Documents.{Gives, document_of};

use crate::error::{FaultsError, FaultsWhy};
use std::alloc::Global;
use toml::{Table, Value};

/// The table that the bytes write.
#[tactic(auto, unfolding(crate::specs::Documents::document_of))]
pub fn read_document(alloc: Global, bytes: &[u8]) -> Result<Table, FaultsError>
    ensures { Gives table_view (ok_or (document_of bytes.now) NotToml) result }
{
    match toml::table_from_slice(alloc, bytes) {
        Ok(table) => Ok(table),
        Err(error) => {
            if error.is_memory() {
                return Err(FaultsError::Memory);
            }
            Err(FaultsError::Refused(FaultsWhy::NotToml))
        }
    }
}

/// What stands at a key.
pub fn value_at<'a>(table: &'a Table, key: &str) -> Option<&'a Value>
    ensures { option_map (λ v. view v.now) result ≡ get_member key.now (table_view table.now) }
{
    table.get(key)
}
