use fb_base::Reply;
use fb_tree::Outcome;

/// Where a body goes on.
#[derive(Drop)]
pub(crate) enum Flow {
    /// With the next statement.
    Next,
    /// Behind the innermost loop.
    Broke,
    /// Nowhere: the method answers.
    Gave(Reply),
    /// Nowhere: the test ends.
    Ended(Outcome),
}
