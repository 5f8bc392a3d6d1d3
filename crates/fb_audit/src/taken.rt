//! What an audit has taken.

use crate::below::Below;

/// What an audit has taken.
#[derive(Drop)]
pub(crate) enum Taken {
    Nothing,
    /// A header, and lines below it.
    Lines(Below),
}
