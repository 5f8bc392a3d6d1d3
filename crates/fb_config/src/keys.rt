//! The keys of a fault file.
ghost use Rattle.std.specs.Prelude.{◌≡◌, ◌||◌, bytes_eq, codes, string_bytes};
ghost use Rattle.std.specs.List.{list_all};
ghost use Rattle.std.specs.BTreeMap.{keys};
ghost use Rattle.toml.specs.View.{table_view};
ghost use Rattle.fb_config.specs.Documents.{is_known, is_item_key, keys_of};

use toml::Table;

/// Where keys stand.
#[derive(Clone, Copy)]
pub enum Keys {
    /// At the top.
    Top,
    /// In an item of a file of this version.
    Item { version: u32 },
}

impl Keys {
    /// Whether the key may stand there.
    fn know(self, key: &str) -> bool
        ensures { result ≡ is_known self key.now }
    {
        match self {
            Keys::Top => key == "fault" || key == "version",
            Keys::Item { version } => is_item_key(key) || (version == 2 && key == "values"),
        }
    }

    fn know_keys(self, table: &Table) -> bool
        ensures { result ≡ list_all (λ key. is_known self (string_bytes key)) (keys table.now) }
    {
        for key in table.keys() {
            if !self.know(key.as_str()) {
                return false;
            }
        }
        true
    }

    /// Whether the table has no keys that may not stand there.
    pub fn know_all(self, table: &Table) -> bool
        ensures { result ≡ list_all (is_known self) (keys_of (table_view table.now)) }
    {
        self.know_keys(table)
    }
}

fn is_item_key(key: &str) -> bool
    ensures { result ≡ is_item_key key.now }
{
    key == "callee" || key == "method" || key == "codes"
}
