//! Walks through a store.
ghost use Rattle.std.specs.Prelude.{◌≡◌, Some, List, [], ◌∷◌, ◌++◌};
ghost use Rattle.fb_base.specs.declared.method.MethodId.{MethodId};
ghost use Rattle.fb_base.specs.declared.reply.Reply.{Reply};
ghost use Rattle.fb_base.specs.declared.value.Value.{Value};
ghost use Rattle.fb_store.specs.Following.{following, view_next};
ghost use Rattle.fb_store.specs.Growth.{place_of, IsPlace};
ghost use Rattle.fb_store.specs.Walks.{walk_of};

use crate::next::Next;
use crate::place::Place;
use crate::store::Store;
use fb_base::Reply;
use fb_tree::Record;
use std::marker::Model;

/// A walk through the records of one method and its arguments, by the replies that it takes.
///
/// It stands at replies with which a record begins, and takes no memory.
#[derive(Drop)]
pub struct Cursor<'a> {
    store: &'a Store,
    /// The first record that begins so.
    item: &'a Record,
    place: Place,
}

impl<'a> Model for Cursor<'a> {
    ghost use Rattle.std.specs.Prelude.{take};
    ghost use Rattle.fb_store.specs.Walks.{Walk};

    ghost Value = { Walk };

    ghost use Rattle.fb_store.specs.Following.{replies_of};
    ghost use Rattle.fb_store.specs.Growth.{StandsAt};

    ghost view = { λ c. record {
      records = c.store.now;
      method = c.item.now.method;
      args = c.item.now.args;
      replies = take c.place.answered (replies_of c.item.now);
    } };

    ghost invariant = { λ c. StandsAt c.store.now c.item.now c.place };
}

impl<'a> Cursor<'a> {
    /// The walk that stands at a place.
    pub(crate) fn at_place(store: &'a Store, place: Place) -> Option<Cursor<'a>>
        requires { IsPlace store.now place }
        ensures { (method : MethodId) (args : List Value) (replies : List Reply) → place_of store.now method args replies ≡ Some place →
            result ≡ Some (record { records = store.now; method = method; args = args; replies = replies }) }
    {
        let item = store.record_at(place)?;
        Some(Cursor { store, item, place })
    }

    /// What follows the replies that it has taken.
    pub fn at(&self) -> Next<'a>
        ensures { Some (view_next result) ≡ following self.now.records self.now.method self.now.args self.now.replies }
    {
        self.store.proper();
        match self.item.calls.get(self.place.answered) {
            Some(asked) => Next::Call { asked },
            None => Next::Done {
                id: self.place.first as u64,
            },
        }
    }

    /// Takes one more reply. There is no walk on exactly where no record begins so.
    pub fn take(self, reply: &Reply) -> Option<Cursor<'a>>
        ensures { result ≡ walk_of self.entry.records self.entry.method self.entry.args (self.entry.replies ++ reply.now ∷ []) }
    {
        let place = self.store.follow(self.place, reply)?;
        Cursor::at_place(self.store, place)
    }
}
