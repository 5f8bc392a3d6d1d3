//! When two values are the same, and when they have a kind in common.
ghost use Rattle.std.specs.Prelude.{◌≡◌};
ghost use Rattle.fb_base.specs.Operators.{share_list_kind, share_kind};

use crate::items::Items;
use crate::value::Value;

impl PartialEq for Items {
    ghost use Rattle.fb_base.specs.Values.{same_items};
    ghost use Rattle.fb_base.specs.SameLaws.{same_items_equiv};
    ghost use Rattle.std.specs.Cmp.{partial_equiv_from_equiv};

    ghost eq = { same_items };

    ghost laws = { partial_equiv_from_equiv same_items_equiv };

    fn eq(&self, other: &Items) -> bool {
        match (self, other) {
            (Items::Empty, Items::Empty) => true,
            (Items::Ints(a), Items::Ints(b)) => a.items() == b.items(),
            (Items::Bools(a), Items::Bools(b)) => a.items() == b.items(),
            (Items::Texts(a), Items::Texts(b)) => a.items() == b.items(),
            _ => false,
        }
    }
}

impl Eq for Items {
    ghost use Rattle.fb_base.specs.SameLaws.{same_items_equiv};

    ghost laws = { same_items_equiv };
}

impl PartialEq for Value {
    ghost use Rattle.fb_base.specs.Values.{same_value};
    ghost use Rattle.fb_base.specs.SameLaws.{same_value_equiv};
    ghost use Rattle.std.specs.Cmp.{partial_equiv_from_equiv};

    ghost eq = { same_value };

    ghost laws = { partial_equiv_from_equiv same_value_equiv };

    fn eq(&self, other: &Value) -> bool {
        match (self, other) {
            (Value::Int(a), Value::Int(b)) => a == b,
            (Value::Bool(a), Value::Bool(b)) => a == b,
            (Value::Text(a), Value::Text(b)) => a == b,
            (Value::List(a), Value::List(b)) => a == b,
            _ => false,
        }
    }
}

impl Eq for Value {
    ghost use Rattle.fb_base.specs.SameLaws.{same_value_equiv};

    ghost laws = { same_value_equiv };
}

fn share_list_kind(a: &Items, b: &Items) -> bool
    ensures { result ≡ share_list_kind a.now b.now }
{
    matches!(
        (a, b),
        (Items::Empty, _)
            | (_, Items::Empty)
            | (Items::Ints(_), Items::Ints(_))
            | (Items::Bools(_), Items::Bools(_))
            | (Items::Texts(_), Items::Texts(_))
    )
}

pub(crate) fn share_kind(a: &Value, b: &Value) -> bool
    ensures { result ≡ share_kind a.now b.now }
{
    match (a, b) {
        (Value::Int(_), Value::Int(_))
        | (Value::Bool(_), Value::Bool(_))
        | (Value::Text(_), Value::Text(_)) => true,
        (Value::List(a), Value::List(b)) => share_list_kind(a, b),
        _ => false,
    }
}
