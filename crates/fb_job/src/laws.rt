//! Laws of jobs. Each is a function that does nothing: what it ensures is the law.
ghost use Rattle.std.specs.Prelude.{ℕ, List, IfSome};
ghost use Rattle.fb_job.specs.Jobs.{job_of_words};
ghost use Rattle.fb_job.specs.Limits.{KeepsLimits};

/// The numbers of a job are within their limits, whatever words say it.
pub fn jobs_keep_their_limits()
    ensures { (words : List (List ℕ)) → IfSome (job_of_words words) KeepsLimits }
{}
