//! The store.
ghost use Rattle.std.specs.Prelude.{◌≡◌, List, [], ◌∷◌, ◌++◌, length, slice_get, All, IfOk, OnOk, OnErr};
ghost use Rattle.std.specs.Option.{option_copied, option_map};
ghost use Rattle.fb_base.specs.declared.method.MethodId.{MethodId};
ghost use Rattle.fb_base.specs.declared.reply.Reply.{Reply};
ghost use Rattle.fb_base.specs.declared.value.Value.{Value};
ghost use Rattle.fb_tree.specs.Agreement.{RecordsAgree};
ghost use Rattle.fb_store.specs.Ending.{IsEndingOf};
ghost use Rattle.fb_store.specs.Following.{AreAgreed, AreDifferent, following, view_next, number_of, with_record};
ghost use Rattle.fb_store.specs.Growth.{place_of};
ghost use Rattle.fb_store.specs.Walks.{walk_of};

use crate::cursor::Cursor;
use crate::next::Next;
use crate::place::Place;
use crate::trees::Trees;
use fb_base::{MethodId, Reply, Value};
use fb_tree::Record;
use std::alloc::{AllocError, Global};
use std::marker::Model;

/// The different records of some invocations, any two of which agree, numbered from 0 in the order in which they came.
///
/// What it costs to add a record or to walk to it doesn't grow with the number of records.
#[derive(Drop)]
pub struct Store {
    records: Vec<Record>,
    trees: Trees,
}

impl Model for Store {
    ghost use Rattle.std.specs.Prelude.{List};
    ghost use Rattle.fb_tree.specs.declared.recorded.Record.{Record};
    ghost use Rattle.fb_store.specs.Growth.{AreGrown};

    ghost Value = { List Record };

    ghost view = { λ s. s.records.items };

    ghost invariant = { λ s. AreGrown s.records.items s.trees };
}

/// Where the way of a record through the trees ends.
enum Ending {
    /// It is known by this number.
    Known(usize),
    /// Its method and arguments have no tree.
    Outside,
    /// No branch of this place has its next reply.
    Branch(Place),
}

impl Store {
    /// A store without records. It takes no memory yet.
    pub fn new(alloc: Global) -> Store
        ensures { result ≡ [] }
    {
        Store {
            records: Vec::new(alloc),
            trees: Trees::new(alloc),
        }
    }

    /// What holds of the records of any store.
    pub fn proper(&self)
        ensures agreed { AreAgreed self.now }
        ensures different { AreDifferent self.now }
    {
        let _records = &self.records;
    }

    /// The number of records.
    pub fn len(&self) -> u64
        ensures { result ≡ length self.now }
    {
        self.records.len() as u64
    }

    /// The record with a number.
    pub fn item(&self, id: u64) -> Option<&Record>
        ensures { option_copied result ≡ slice_get self.now id }
    {
        self.records.as_slice().get(id as usize)
    }

    /// Adds a record, unless it is known, and gives its number.
    pub fn add(&mut self, item: Record) -> Result<u64, AllocError>
        requires { All (RecordsAgree item) self.old }
        ensures number { IfOk result (λ id. id ≡ number_of self.old item) }
        ensures added { OnOk result (self.new ≡ with_record self.old item) }
        ensures err { OnErr result (self.new ≡ self.old) }
    {
        match self.descend(&item) {
            Ending::Known(id) => Ok(id as u64),
            Ending::Outside => self.add_tree(item),
            Ending::Branch(place) => self.add_branch(place, item),
        }
    }

    /// What follows in the records of that method and those arguments whose replies begin with these. It takes no memory.
    pub fn next(&self, method: MethodId, args: &[Value], replies: &[Reply]) -> Option<Next<'_>>
        ensures { option_map view_next result ≡ following self.now method args.now replies.now }
    {
        let mut cursor = self.start(method, args)?;
        for reply in replies {
            cursor = cursor.take(reply)?;
        }
        Some(cursor.at())
    }

    /// A walk through the records of that method and those arguments, none exactly where there is no such record. It
    /// takes no memory.
    pub fn start(&self, method: MethodId, args: &[Value]) -> Option<Cursor<'_>>
        ensures { result ≡ walk_of self.now method args.now [] }
    {
        Cursor::at_place(self, self.root(method, args)?)
    }

    /// The place at which no call is answered.
    fn root(&self, method: MethodId, args: &[Value]) -> Option<Place>
        ensures { result ≡ place_of self.now method args.now [] }
    {
        let first = self.trees.root(method, args)?;
        Some(Place { first, answered: 0 })
    }

    /// The place to which a reply leads.
    pub(crate) fn follow(&self, place: Place, reply: &Reply) -> Option<Place>
        ensures { (method : MethodId) (args : List Value) (replies : List Reply) → place_of self.now method args replies ≡ Some place →
            result ≡ place_of self.now method args (replies ++ reply.now ∷ []) }
    {
        let trees = &self.trees;
        let item = self.record_at(place)?;
        let asked = item.calls.as_slice().get(place.answered)?;
        let answered = place.answered + 1;
        if asked.reply == *reply {
            return Some(Place {
                first: place.first,
                answered,
            });
        }
        let first = trees.branch(place, reply)?;
        Some(Place { first, answered })
    }

    /// The record that stands first at a place.
    pub(crate) fn record_at(&self, place: Place) -> Option<&Record>
        ensures { option_copied result ≡ slice_get self.now place.first }
    {
        self.records.as_slice().get(place.first)
    }

    /// Goes the way of a record as far as it is known.
    fn descend(&self, item: &Record) -> Ending
        ensures { IsEndingOf self.now item.now result }
    {
        let Some(mut place) = self.root(item.method, item.args.as_slice()) else {
            return Ending::Outside;
        };
        for asked in item.calls.as_slice() {
            let Some(further) = self.follow(place, &asked.reply) else {
                return Ending::Branch(place);
            };
            place = further;
        }
        Ending::Known(place.first)
    }

    /// Adds the first record of a method and its arguments.
    fn add_tree(&mut self, item: Record) -> Result<u64, AllocError>
        requires agrees { All (RecordsAgree item) self.old }
        requires ending { IsEndingOf self.old item Ending.Outside }
        ensures number { IfOk result (λ id. id ≡ length self.old) }
        ensures added { OnOk result (self.new ≡ self.old ++ item ∷ []) }
        ensures err { OnErr result (self.new ≡ self.old) }
    {
        self.records.reserve(1)?;
        let id = self.records.len();
        self.trees.add_root(item.method, &item.args, id)?;
        self.records.push_reserved(item);
        Ok(id as u64)
    }

    /// Adds a record that goes on from a place with a new reply.
    fn add_branch(&mut self, place: Place, item: Record) -> Result<u64, AllocError>
        requires agrees { All (RecordsAgree item) self.old }
        requires ending { IsEndingOf self.old item (Ending.Branch place) }
        ensures number { IfOk result (λ id. id ≡ length self.old) }
        ensures added { OnOk result (self.new ≡ self.old ++ item ∷ []) }
        ensures err { OnErr result (self.new ≡ self.old) }
    {
        self.records.reserve(1)?;
        let id = self.records.len();
        let asked = &item.calls.as_slice()[place.answered];
        self.trees.add_branch(place, &asked.reply, id)?;
        self.records.push_reserved(item);
        Ok(id as u64)
    }
}
