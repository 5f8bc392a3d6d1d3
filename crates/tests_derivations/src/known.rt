//! Stores of true records.
ghost use Rattle.std.specs.Prelude.{◌≡◌, ◌<◌, IfSome};
ghost use Rattle.fb_meaning.specs.DecisionLaws.{IsTrueOnce};
ghost use Rattle.fb_stitch.specs.Sources.{AreTrueOf};
ghost use Rattle.fb_tree.specs.Records.{records_in};
ghost use Rattle.fb_tree.specs.Views.{view_calls};

use crate::sources::test;
use fb_base::Steps;
use fb_check::{CheckedTest, Program};
use fb_eval::{Fuel, eval_body_test};
use fb_index::Plan;
use fb_meaning::{records_of_runs_are_true, true_records_agree};
use fb_store::Store;
use fb_transport::Injecting;
use fb_tree::{How, Record, TestNode, record_of};
use std::alloc::Global;
use std::marker::Brand;
use std::sync::ledger::{Blank, Ledger};

/// A call of a test, as `cart.total(2)`, and the plan under which its record is made.
pub(crate) type Row<'a> = (&'a str, &'a str);

/// A front that calls two services, each of which calls one more.
pub(crate) const FRONT: &str = "service front { method go() -> int {
  let x = 0;
  let y = 0;
  call x = b.get() on any { x = 0; }
  call y = c.get() on any { y = 0; }
  return x + y;
} }
service b { method get() -> int { let v = 0; call v = d.get(); return v; } }
service c { method get() -> int { let v = 0; call v = e.get(); return v; } }
service d { method get() -> int { return 1; } }
service e { method get() -> int { return 1; } }";

/// All records of the runs of the front.
pub(crate) const TEN: [Row<'static>; 10] = [
    ("front.go()", "none"),
    ("b.get()", "none"),
    ("d.get()", "none"),
    ("c.get()", "none"),
    ("e.get()", "none"),
    ("front.go()", "1.1/1.1=timeout"),
    ("b.get()", "1.1/1.1=timeout"),
    ("front.go()", "1.1/2.1=timeout"),
    ("c.get()", "1.1/1.1=timeout"),
    ("front.go()", "1.1/1.1=timeout,1.1/2.1=timeout"),
];

/// The run of a test under a plan.
fn run_counted<L: Ledger>(
    alloc: Global,
    program: &Program,
    test: &CheckedTest,
    plan: Plan,
    blank: Blank,
) -> Option<TestNode>
    requires name { blank.name ≡ L.name }
    requires parts { blank.parts ≡ L.parts }
    requires some { 0 < L.parts }
    requires made { test.now.services ≡ program.now.tree }
    ensures { IfSome result (λ run. AreTrueOf program.now.tree (records_in (view_calls run.calls.items))) }
{
    records_of_runs_are_true();
    let mut transport = Injecting::new(program.kinds(), plan);
    let mut left = Fuel::of(1_000);
    let mut evals = Steps::<L>::new(blank);
    match eval_body_test(alloc, program, test, &mut transport, &mut left, &mut evals) {
        Ok(run) => Some(run),
        Err(_) => None,
    }
}

/// The record of the first call of a run.
fn first_record(alloc: Global, program: &Program, run: &TestNode) -> Option<Record>
    requires { AreTrueOf program.now.tree (records_in (view_calls run.now.calls.items)) }
    ensures { IfSome result (IsTrueOnce program.now.tree) }
{
    let [made, ..] = run.calls.as_slice() else {
        return None;
    };
    match &made.how {
        How::Ran(node) => match record_of(alloc, node) {
            Ok(item) => Some(item),
            Err(_) => None,
        },
        How::Fault => None,
        How::Known { .. } => None,
    }
}

/// The record of a row.
fn recorded(alloc: Global, program: &Program, row: &Row<'_>) -> Option<Record>
    ensures { IfSome result (IsTrueOnce program.now.tree) }
{
    let (call, plan) = *row;
    let text = format!(in alloc;
        "test t {{ let r = 0; call r = {call} on any {{ r = 1; }} }}"
    ).ok()?;
    let test = test(alloc, program, text.as_str())?;
    let plan = Plan::read_text(alloc, plan.as_bytes()).ok()?;
    let run = run_counted::<Brand>(alloc, program, &test, plan, Blank::new(1))?;
    first_record(alloc, program, &run)
}

/// Adds a true record to others.
fn add(store: &mut Store, program: &Program, item: Record) -> bool
    requires known { AreTrueOf program.now.tree store.old }
    requires item { IsTrueOnce program.now.tree item }
    ensures { AreTrueOf program.now.tree store.new }
{
    true_records_agree();
    match store.add(item) {
        Ok(_) => true,
        Err(_) => false,
    }
}

/// The store of the records of these rows, in their order.
pub(crate) fn store_of(alloc: Global, program: &Program, rows: &[Row<'_>]) -> Option<Store>
    ensures { IfSome result (AreTrueOf program.now.tree) }
{
    let mut store = Store::new(alloc);
    for row in rows {
        let item = recorded(alloc, program, row)?;
        if !add(&mut store, program, item) {
            return None;
        }
    }
    Some(store)
}
