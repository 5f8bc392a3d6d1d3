ghost use Rattle.std.specs.Prelude.{◌≡◌, IsNone};
ghost use Rattle.fb_syntax.specs.Views.{view_services, view_test};
ghost use Rattle.fb_syntax.specs.Kept.{KeepsTestLimits};
ghost use Rattle.fb_check.specs.FirstRefusal.{first_refusal, first_refusal_of_test};

use crate::body_tables::BodyTables;
use crate::counts::Counts;
use fb_base::MethodId;
use fb_syntax::{Services, Test};
use std::marker::Model;
use std::rc::Rc;

/// An accepted test, with the accepted services of which it was checked.
///
/// Only [`check_test`](crate::check_test) makes one.
#[derive(Drop)]
pub struct CheckedTest {
    services: Rc<Services>,
    test: Test,
    tables: BodyTables,
    ghost services_accepted: { IsNone (first_refusal (view_services services.value)) },
    ghost accepted: { IsNone (first_refusal_of_test (view_services services.value) (view_test test)) },
    ghost limits: { ∥ KeepsTestLimits (view_test test) ∥₁ },
}

impl Model for CheckedTest {
    ghost use Rattle.std.specs.Prelude.{◌≡◌};
    ghost use Rattle.fb_syntax.specs.Views.{view_services, view_test};
    ghost use Rattle.fb_check.specs.Declarations.{declarations_of};
    ghost use Rattle.fb_check.specs.Tables.{body_tables};
    ghost use Rattle.fb_check.specs.AcceptedSources.{AcceptedTest, coded_accepted_test};

    ghost Value = { AcceptedTest };

    ghost coded = { coded_accepted_test };

    ghost view = { λ t. record {
      services = view_services t.services.value;
      services_accepted = t.services_accepted;
      tree = view_test t.test;
      accepted = t.accepted;
      limits = t.limits;
    } };

    ghost invariant = { λ t. t.tables ≡ body_tables (declarations_of (view_services t.services.value)) (view_test t.test).body };
}

impl CheckedTest {
    ghost use Rattle.std.specs.Prelude.{◌≡◌, ◌<◌, length, is_none, option_map, IfSome};
    ghost use Rattle.fb_check.specs.Declarations.{declarations_of};
    ghost use Rattle.fb_check.specs.Counts.{entries_of};
    ghost use Rattle.fb_check.specs.Tables.{body_tables};
    ghost use Rattle.fb_check.specs.Programs.{methods_of, test_site_at, test_callee_at};

    /// A test that is checked, with what is kept of its body.
    pub(crate) fn of(services: Rc<Services>, test: Test, tables: BodyTables) -> CheckedTest
        requires services_accepted { IsNone (first_refusal (view_services services.value)) }
        requires accepted { IsNone (first_refusal_of_test (view_services services.value) (view_test test)) }
        requires limits { KeepsTestLimits (view_test test) }
        requires tables { tables ≡ body_tables (declarations_of (view_services services.value)) (view_test test).body }
        ensures services { result.services ≡ view_services services.value }
        ensures tree { result.tree ≡ view_test test }
    {
        CheckedTest {
            services,
            test,
            tables,
        }
    }

    /// The test as it stands in the source.
    pub fn tree(&self) -> &Test
        ensures { view_test result.now ≡ self.now.tree }
    {
        &self.test
    }

    /// What stands in each statement of the test's body and in each block inside it, as
    /// [`Program::counts`](crate::Program::counts).
    pub fn counts(&self) -> &[Counts]
        ensures { result.now ≡ entries_of self.now.tree.body }
    {
        self.tables.counts.as_slice()
    }

    /// The method that a call site of the test calls, as [`Program::callee_at`](crate::Program::callee_at).
    pub fn callee_at(&self, site: u32) -> Option<MethodId>
        ensures callee { option_map (λ m. m.0) result ≡ test_callee_at self.now.services self.now.tree site }
        ensures none { is_none result ≡ is_none (test_site_at self.now.tree site) }
        ensures within { IfSome result (λ m. m.0 < length (methods_of self.now.services)) }
    {
        self.tables.callee(site)
    }
}
