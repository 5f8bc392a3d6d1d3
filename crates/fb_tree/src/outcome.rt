use fb_base::Code;

/// How a test ended. Each number is counted from 1 in the test's text.
#[derive(Clone, Copy, PartialEq, Eq)]
pub enum Outcome {
    Passed,
    /// The number of the assert that was false.
    AssertFailed(u32),
    /// The number of the call that got an error with no handler, and the error.
    CallFailed(u32, Code),
    /// The number of the statement that faulted.
    Fault(u32),
}
