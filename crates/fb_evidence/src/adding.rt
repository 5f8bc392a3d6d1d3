//! The records of inv lines, one by one.
ghost use Rattle.std.specs.Prelude.{◌≡◌, ◌+◌, ◌≤◌, All, IfOk, OnOk, OnErr};
ghost use Rattle.fb_eval.specs.Units.{most_units};
ghost use Rattle.fb_meaning.specs.Each.{HoldsOfEach};
ghost use Rattle.fb_meaning.specs.Records.{IsTrueRecord};
ghost use Rattle.fb_tree.specs.Agreement.{RecordsAgree};
ghost use Rattle.fb_evidence.specs.NewRecords.{AddsIfNew, TakesRecord, TellsNew};

use crate::grounds::Grounds;
use fb_base::Steps;
use fb_meaning::true_records_agree;
use fb_report::NamedRecord;
use fb_store::Store;
use fb_tree::Record;
use std::alloc::AllocError;
use std::sync::ledger::Ledger;

/// Adds a record, and answers whether it was new.
fn add_new(store: &mut Store, item: Record) -> Result<bool, AllocError>
    requires { All (RecordsAgree item) store.old }
    ensures adds { IfOk result (AddsIfNew item store.old store.new) }
    ensures err { OnErr result (store.new ≡ store.old) }
{
    let known = store.len();
    let id = store.add(item)?;
    Ok(known <= id)
}

impl Grounds<'_> {
    /// Takes the record of an inv line: answers whether it is true with so much fuel and none of those that are known, and then
    /// adds it to them.
    ///
    /// At most one body is evaluated.
    pub fn add_record<L: Ledger>(
        &self,
        store: &mut Store,
        fuel: u64,
        made: &NamedRecord,
        evals: &mut Steps<L>,
    ) -> Result<bool, AllocError>
        requires known { HoldsOfEach (IsTrueRecord self.now.program.now.tree fuel) store.old }
        requires small { fuel ≤ most_units }
        ensures told { IfOk result (TellsNew self.now.program.now.tree fuel made.now store.old) }
        ensures takes { IfOk result (TakesRecord self.now.program.now.tree fuel made.now store.old store.new) }
        ensures hold { OnOk result (HoldsOfEach (IsTrueRecord self.now.program.now.tree fuel) store.new) }
        ensures err { OnErr result (store.new ≡ store.old) }
        ensures ticks { evals.new ≤ evals.old + 1 }
    {
        true_records_agree();
        let Some(item) = self.true_record(fuel, made, evals)? else {
            return Ok(false);
        };
        let is_new = add_new(store, item)?;
        Ok(is_new)
    }
}
