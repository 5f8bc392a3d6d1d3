use fb_tree::Asked;

/// What follows in the records that begin in some way.
#[derive(Drop)]
pub enum Next<'a> {
    /// A call. What it asks is the same in each of them, and its reply that of the first of them.
    Call { asked: &'a Asked },
    /// Nothing: the number of the one record that is at its end.
    Done { id: u64 },
}
