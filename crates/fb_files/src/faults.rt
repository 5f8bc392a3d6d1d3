//! Counting failures.
ghost use Rattle.std.specs.Prelude.{◌≡◌};
ghost use Rattle.fb_base.specs.Count.{NeverFell};
ghost use Rattle.fb_files.specs.Faults.{faults_after};

/// The failures so far, after a call that failed or didn't. They stand still at u64's greatest value.
pub(crate) fn faults_after(faults: u64, failed: bool) -> u64
    ensures count { result ≡ faults_after failed faults }
    ensures never_fell { NeverFell faults result }
{
    if failed {
        faults.saturating_add(1)
    } else {
        faults
    }
}
