//! The book of the plan lines that were read.
ghost use Rattle.std.specs.Prelude.{◌≡◌, ◌<◌, ℕ, [], length, All, IfOk, OnOk};
ghost use Rattle.std.specs.List.{position_from};
ghost use Rattle.fb_base.specs.Replies.{same_reply};
ghost use Rattle.fb_syntax.specs.Trees.{ServicesTree, TestTree};
ghost use Rattle.fb_campaign.specs.Runs.{Choices};
ghost use Rattle.fb_config.specs.Choices.{choices_for};
ghost use Rattle.fb_config.specs.declared.choices.ChoiceTable.{ChoiceTable};
ghost use Rattle.fb_tree.specs.declared.visit.Visit.{Visit as VisitOf};
ghost use Rattle.fb_book.specs.Calls.{HasMethod};
ghost use Rattle.fb_book.specs.Books.{AreKnown, child_by, child_in, child_of, longer_plan, new_plan, child_plan, plan_for, root_plan, with_row, missing_call, missing_row, missing_at, missing_of};
ghost use Rattle.fb_book.specs.Kept.{IsBookOf};
ghost use Rattle.fb_book.specs.Laws.{AnswersParent, AnswersMissing, AddsLine};

use crate::call::Call;
use crate::calls::Calls;
use crate::child::Child;
use crate::children::Children;
use crate::laws::books_grow;
use crate::missing::Missing;
use crate::row::Row;
use fb_base::Reply;
use fb_config::Faults;
use fb_index::{Index, Plan};
use fb_tree::Visit;
use std::alloc::{AllocError, Global};
use std::marker::Model;

/// What the plan lines read so far tell: for each its place among the lines, its plan and the calls at which the plan is
/// extended, and which extensions have a line.
#[derive(Drop)]
pub struct Book {
    alloc: Global,
    rows: Vec<Row>,
    told: Children,
}

impl Model for Book {
    ghost use Rattle.fb_book.specs.Books.{BookOf};

    ghost Value = { BookOf };

    ghost view = { λ b. record { rows = b.rows.items; told = b.told } };
}

/// The place of the first reply that is this one.
fn place_among(choices: &[Reply], reply: &Reply) -> Option<usize>
    ensures { result ≡ position_from (same_reply reply.now) 0 choices.now }
{
    let mut place = 0;
    let mut left = choices;
    while let [choice, rest @ ..] = left {
        if reply.same(choice) {
            return Some(place);
        }
        place += 1;
        left = rest;
    }
    None
}

/// The extension by a reply at a call.
fn child_by(faults: &Faults, parent: u64, place: usize, reply: &Reply, call: &Call) -> Option<Child>
    requires { HasMethod faults.now call.now }
    ensures { result ≡ child_by (choices_for faults.now) parent place reply.now call.now }
{
    let choices = faults.choices_for(call.callee);
    let choice = place_among(choices, reply)?;
    Some(Child {
        parent,
        call: place,
        choice,
    })
}

/// The extension by a fault.
fn child_in(
    faults: &Faults,
    parent: u64,
    index: &Index,
    reply: &Reply,
    calls: &Calls,
) -> Result<Option<Child>, AllocError>
    requires { All (HasMethod faults.now) calls.now }
    ensures { IfOk result (λ child. child ≡ child_in (choices_for faults.now) parent index.now reply.now calls.now) }
{
    let Some(place) = calls.place_of(index)? else {
        return Ok(None);
    };
    let Some(call) = calls.as_slice().get(place) else {
        return Ok(None);
    };
    Ok(child_by(faults, parent, place, reply, call))
}

/// The plan of the first line, which has no parent and no fault and is run.
fn root_plan(parent: Option<u64>, fault: &Option<(Index, Reply)>, run: bool) -> Option<Plan>
    ensures { result ≡ root_plan parent fault.now run }
{
    if parent.is_none() && fault.is_none() && run {
        return Some(Plan::empty());
    }
    None
}

/// The first extension at these calls that has no line; the first call has this place.
fn missing_call(told: &Children, faults: &Faults, parent: u64, calls: &[Call]) -> Option<Child>
    requires { All (HasMethod faults.now) calls.now }
    ensures { result ≡ missing_call told.now (choices_for faults.now) parent 0 calls.now }
{
    let mut place = 0;
    let mut left = calls;
    while let [call, rest @ ..] = left {
        let choices = faults.choices_for(call.callee);
        if let Some(child) = told.first_missing(parent, place, choices) {
            return Some(child);
        }
        place += 1;
        left = rest;
    }
    None
}

/// The first extension of these rows' plans that has no line.
fn missing_row(told: &Children, faults: &Faults, rows: &[Row]) -> Option<Child>
    requires { AreKnown faults.now rows.now }
    ensures { result ≡ missing_row told.now (choices_for faults.now) 0 rows.now }
{
    let mut parent = 0;
    let mut left = rows;
    while let [row, rest @ ..] = left {
        if let Some(child) = missing_call(told, faults, parent, row.calls.as_slice()) {
            return Some(child);
        }
        parent += 1;
        left = rest;
    }
    None
}

impl Book {
    /// The book of no lines. It takes no memory yet.
    pub fn new(alloc: Global) -> Book
        ensures known { (faults : ChoiceTable) → AreKnown faults result.rows }
        ensures book { (services : ServicesTree) (test : TestTree) (choices : Choices) (fuel : ℕ) → IsBookOf services test choices fuel [] result }
    {
        Book {
            alloc,
            rows: Vec::new(alloc),
            told: Children::new(alloc),
        }
    }

    /// Which extension a line is.
    fn child_of(
        &self,
        faults: &Faults,
        parent: Option<u64>,
        fault: &Option<(Index, Reply)>,
    ) -> Result<Option<Child>, AllocError>
        requires { AreKnown faults.now self.now.rows }
        ensures { IfOk result (λ child. child ≡ child_of self.now.rows (choices_for faults.now) parent fault.now) }
    {
        let Some(number) = parent else {
            return Ok(None);
        };
        let Some((index, reply)) = fault else {
            return Ok(None);
        };
        let Some(row) = self.rows.as_slice().get(number as usize) else {
            return Ok(None);
        };
        child_in(faults, number, index, reply, &row.calls)
    }

    /// The plan of an extension, by the fault that it adds.
    fn longer_plan(
        &self,
        alloc: Global,
        child: Child,
        fault: &Option<(Index, Reply)>,
    ) -> Result<Option<Plan>, AllocError>
        ensures { IfOk result (λ plan. plan ≡ longer_plan self.now.rows child fault.now) }
    {
        let Some(row) = self.rows.as_slice().get(child.parent as usize) else {
            return Ok(None);
        };
        let Some((index, reply)) = fault else {
            return Ok(None);
        };
        let plan = row.plan.with(alloc, index.copy()?, reply.copy(alloc)?)?;
        Ok(Some(plan))
    }

    /// The plan of an extension that has no line yet.
    fn new_plan(
        &self,
        alloc: Global,
        child: Child,
        fault: &Option<(Index, Reply)>,
    ) -> Result<Option<Plan>, AllocError>
        ensures { IfOk result (λ plan. plan ≡ new_plan self.now child fault.now) }
    {
        if self.told.has(child) {
            return Ok(None);
        }
        self.longer_plan(alloc, child, fault)
    }

    /// The plan of a line that isn't the first.
    fn child_plan(
        &self,
        alloc: Global,
        faults: &Faults,
        parent: Option<u64>,
        fault: &Option<(Index, Reply)>,
    ) -> Result<Option<Plan>, AllocError>
        requires { AreKnown faults.now self.now.rows }
        ensures { IfOk result (λ plan. plan ≡ child_plan self.now (choices_for faults.now) parent fault.now) }
    {
        let Some(child) = self.child_of(faults, parent, fault)? else {
            return Ok(None);
        };
        self.new_plan(alloc, child, fault)
    }

    /// The plan of a further line.
    fn plan_for(
        &self,
        alloc: Global,
        faults: &Faults,
        parent: Option<u64>,
        fault: &Option<(Index, Reply)>,
        run: bool,
    ) -> Result<Option<Plan>, AllocError>
        requires { AreKnown faults.now self.now.rows }
        ensures { IfOk result (λ plan. plan ≡ plan_for self.now (choices_for faults.now) parent fault.now run) }
    {
        if 0 < self.rows.len() {
            return self.child_plan(alloc, faults, parent, fault);
        }
        Ok(root_plan(parent, fault, run))
    }

    /// The plan of a further plan line, which names this parent, adds this fault and is run or not; none exactly where it
    /// hasn't a parent above it, or another line has its plan. It is found by the parent's number and the fault's index; the
    /// choices for the callee are searched for the reply.
    pub fn plan_of(
        &self,
        alloc: Global,
        faults: &Faults,
        parent: Option<u64>,
        fault: &Option<(Index, Reply)>,
        run: bool,
    ) -> Result<Option<Plan>, AllocError>
        requires { AreKnown faults.now self.now.rows }
        ensures { IfOk result (AnswersParent self.now (choices_for faults.now) parent fault.now run) }
    {
        self.plan_for(alloc, faults, parent, fault, run)
    }

    /// Adds a row, and notes the extension that the line is.
    fn add_row(
        &mut self,
        at: u64,
        plan: Plan,
        parent: Option<u64>,
        fault: &Option<(Index, Reply)>,
        calls: &[Visit],
        faults: &Faults,
    ) -> Result<(), AllocError>
        requires { AreKnown faults.now self.old.rows }
        ensures { OnOk result (self.new ≡ with_row self.old (choices_for faults.now) at plan parent fault.now calls.now) }
    {
        let child = self.child_of(faults, parent, fault)?;
        let calls = Calls::of(self.alloc, &plan, calls)?;
        self.rows.push(Row { at, plan, calls })?;
        if let Some(child) = child {
            self.told.add(child)?;
        }
        Ok(())
    }

    /// Adds a plan line that names this parent and adds this fault, after `plan_of` gave its plan and its run was found: the
    /// line stands at a place among all lines, and the run has these calls.
    ///
    /// Without memory the book may be anything.
    pub fn add(
        &mut self,
        at: u64,
        plan: Plan,
        parent: Option<u64>,
        fault: &Option<(Index, Reply)>,
        calls: &[Visit],
        faults: &Faults,
    ) -> Result<(), AllocError>
        requires known { AreKnown faults.now self.old.rows }
        requires calls { All (λ (call : VisitOf). call.callee.0 < length faults.now.kinds) calls.now }
        ensures known { OnOk result (AreKnown faults.now self.new.rows) }
        ensures book { OnOk result (AddsLine self.old self.new (choices_for faults.now) at plan parent fault.now calls.now) }
    {
        faults.proper();
        books_grow();
        self.add_row(at, plan, parent, fault, calls, faults)
    }

    /// The fault of an extension, and the place of the line whose plan it extends.
    fn missing_at(
        &self,
        alloc: Global,
        faults: &Faults,
        child: Child,
    ) -> Result<Option<Missing>, AllocError>
        requires { AreKnown faults.now self.now.rows }
        ensures { IfOk result (λ missing. missing ≡ missing_at self.now.rows (choices_for faults.now) child) }
    {
        let Some(row) = self.rows.as_slice().get(child.parent as usize) else {
            return Ok(None);
        };
        let Some(call) = row.calls.as_slice().get(child.call) else {
            return Ok(None);
        };
        let Some(reply) = faults.choices_for(call.callee).get(child.choice) else {
            return Ok(None);
        };
        Ok(Some(Missing {
            at: row.at,
            index: call.index.copy()?,
            reply: reply.copy(alloc)?,
        }))
    }

    /// The first extension without a line.
    fn missing_of(&self, alloc: Global, faults: &Faults) -> Result<Option<Missing>, AllocError>
        requires { AreKnown faults.now self.now.rows }
        ensures { IfOk result (λ missing. missing ≡ missing_of self.now (choices_for faults.now)) }
    {
        let Some(child) = missing_row(&self.told, faults, self.rows.as_slice()) else {
            return Ok(None);
        };
        self.missing_at(alloc, faults, child)
    }

    /// The first extension without a line, by the order of the lines and of their runs' calls; none exactly where each
    /// extension has a line. Its time grows with all extensions up to it.
    pub fn first_missing(
        &self,
        alloc: Global,
        faults: &Faults,
    ) -> Result<Option<Missing>, AllocError>
        requires { AreKnown faults.now self.now.rows }
        ensures { IfOk result (AnswersMissing self.now (choices_for faults.now)) }
    {
        self.missing_of(alloc, faults)
    }
}
