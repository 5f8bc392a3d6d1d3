//! Laws of acceptance that parameters need. Each is a function that does nothing: what it ensures is the law.
ghost use Rattle.std.specs.Prelude.{◌≡◌, ℕ, map, IsNone, Some};
ghost use Rattle.fb_syntax.specs.Trees.{MethodTree, ServicesTree};
ghost use Rattle.fb_check.specs.Accepted.{AllDiffer};
ghost use Rattle.fb_check.specs.FirstRefusal.{first_refusal};
ghost use Rattle.fb_check.specs.Programs.{method_at};

use fb_check::acceptance_is_exact;

/// The parameters of each method of accepted services have different names.
pub fn parameters_differ()
    ensures { (tree : ServicesTree) → IsNone (first_refusal tree) → (m : ℕ) (method : MethodTree) →
        method_at tree m ≡ Some method → AllDiffer (map (λ param. param.name) method.params) }
{
    acceptance_is_exact();
}
