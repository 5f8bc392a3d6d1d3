//! The two checks.
ghost use Rattle.std.specs.Prelude.{◌≡◌, IfOk};
ghost use Rattle.fb_syntax.specs.Views.{view_services, view_test};
ghost use Rattle.fb_syntax.specs.Kept.{KeepsServicesLimits, KeepsTestLimits};
ghost use Rattle.fb_check.specs.Tables.{AreTables};
ghost use Rattle.fb_check.specs.FirstRefusal.{Tells, calls_check, source_check, test_check};
ghost use Rattle.fb_check.specs.Declarations.{declarations_of};
ghost use Rattle.fb_check.specs.CheckResults.{IsServicesCheck, IsTestCheck};

use crate::bodies::services_check;
use crate::body_tables::BodyTables;
use crate::calls::{calls_check, graph_of};
use crate::checked_test::CheckedTest;
use crate::context::Context;
use crate::declarations::Declarations;
use crate::error::CheckError;
use crate::naming::services_named;
use crate::owner::Owner;
use crate::program::Program;
use crate::scope::Scope;
use crate::tables::{Tables, bodies_of};
use fb_syntax::{Services, Test};
use std::alloc::Global;

/// What is kept of services, where their calls are accepted.
fn tables_of(
    alloc: Global,
    services: &Services,
    declared: Declarations,
) -> Result<Tables, CheckError>
    requires limits { KeepsServicesLimits (view_services services.now) }
    requires declared { declared ≡ declarations_of (view_services services.now) }
    ensures told { Tells result (calls_check (view_services services.now)) }
    ensures tables { IfOk result (AreTables (view_services services.now)) }
{
    let bodies = bodies_of(alloc, &declared, services.list.as_slice())?;
    let graph = graph_of(alloc, bodies.as_slice())?;
    let ranks = calls_check(alloc, &declared, &graph)?;
    Ok(Tables {
        declared,
        bodies,
        ranks,
    })
}

/// What is kept of services, where they are accepted.
#[tactic(auto, unfolding(crate::specs::FirstRefusal::source_check))]
fn accepted_tables(alloc: Global, services: &Services) -> Result<Tables, CheckError>
    requires { KeepsServicesLimits (view_services services.now) }
    ensures told { Tells result (source_check (view_services services.now)) }
    ensures tables { IfOk result (AreTables (view_services services.now)) }
{
    services_named(alloc, services.list.as_slice())?;
    let declared = Declarations::of(alloc, services)?;
    services_check(alloc, &declared, services.list.as_slice())?;
    let tables = tables_of(alloc, services, declared)?;
    Ok(tables)
}

/// Checks services: first that names differ, then each body in source order, then the calls: a cycle goes before a
/// chain that is too deep.
///
/// A refusal is the first rule that is broken, in the order in which the rules are tried, and its place.
pub fn check_services(alloc: Global, services: Services) -> Result<Program, CheckError>
    requires { KeepsServicesLimits (view_services services) }
    ensures { IsServicesCheck (view_services services) result }
{
    let tables = accepted_tables(alloc, &services)?;
    Ok(Program::of(alloc, services, tables)?)
}

#[tactic(auto, unfolding(crate::specs::FirstRefusal::test_check))]
fn refuse_test(alloc: Global, program: &Program, test: &Test) -> Result<(), CheckError>
    requires { KeepsTestLimits (view_test test.now) }
    ensures { Tells result (test_check program.now.tree (view_test test.now)) }
{
    let about = Context {
        declared: program.declared(),
        owner: Owner::Test,
        service: 0,
        method: 0,
    };
    about.check(Scope::new(alloc), &test.body)
}

/// Checks a test of these services. Its place has neither service nor method.
pub fn check_test(alloc: Global, program: &Program, test: Test) -> Result<CheckedTest, CheckError>
    requires { KeepsTestLimits (view_test test) }
    ensures { IsTestCheck program.now.tree (view_test test) result }
{
    refuse_test(alloc, program, &test)?;
    let tables = BodyTables::of(alloc, program.declared(), &test.body)?;
    Ok(CheckedTest::of(program.services().clone()?, test, tables))
}
