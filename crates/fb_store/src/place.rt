//! Places in a decision tree.

/// The place in a tree at which some calls are answered: the first record that begins so, and how many they are.
///
/// It asks what the record's next call asks. The record's own reply leads on to the same record, any other to the
/// first of those that go on with that reply. Where the record has no further call, the place is a leaf.
#[derive(Clone, Copy, PartialEq, Eq, Hash)]
pub struct Place {
    pub first: usize,
    pub answered: usize,
}
