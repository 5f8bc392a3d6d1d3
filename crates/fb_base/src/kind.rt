//! The kinds of values.

ghost use Rattle.std.specs.Prelude.{◌≡◌, ◌↔◌, IsTrue};
ghost use Rattle.fb_base.specs.KindSame.{same_kind};
ghost use Rattle.fb_base.specs.Kinds.{kind_of_list, kind_of_item};

/// The kind of a value. A list is of ints, bools or texts; no list holds lists.
#[derive(Debug, Clone, Copy)]
pub enum Kind {
    Int,
    Bool,
    Text,
    Ints,
    Bools,
    Texts,
}

impl PartialEq for Kind {
    ghost use Rattle.fb_base.specs.KindSame.{same_kind, same_kind_equiv};
    ghost use Rattle.std.specs.Cmp.{partial_equiv_from_equiv};

    ghost eq = { same_kind };

    ghost laws = { partial_equiv_from_equiv same_kind_equiv };

    fn eq(&self, other: &Kind) -> bool {
        match (self, other) {
            (Kind::Int, Kind::Int)
            | (Kind::Bool, Kind::Bool)
            | (Kind::Text, Kind::Text)
            | (Kind::Ints, Kind::Ints)
            | (Kind::Bools, Kind::Bools)
            | (Kind::Texts, Kind::Texts) => true,
            _ => false,
        }
    }
}

impl Eq for Kind {
    ghost use Rattle.fb_base.specs.KindSame.{same_kind_equiv};

    ghost laws = { same_kind_equiv };
}

impl Kind {
    /// Whether the kinds are equal.
    pub fn same(self, other: Kind) -> bool
        ensures value { result ≡ same_kind self other }
        ensures equal { IsTrue result ↔ (self ≡ other) }
    {
        self == other
    }

    /// The kind of a list of items of this kind.
    pub fn list(self) -> Option<Kind>
        ensures { result ≡ kind_of_list self }
    {
        match self {
            Kind::Int => Some(Kind::Ints),
            Kind::Bool => Some(Kind::Bools),
            Kind::Text => Some(Kind::Texts),
            _ => None,
        }
    }

    /// The kind of the items of a list of this kind.
    pub fn item(self) -> Option<Kind>
        ensures { result ≡ kind_of_item self }
    {
        match self {
            Kind::Ints => Some(Kind::Int),
            Kind::Bools => Some(Kind::Bool),
            Kind::Texts => Some(Kind::Text),
            _ => None,
        }
    }
}
