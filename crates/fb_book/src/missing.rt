use fb_base::Reply;
use fb_index::Index;

/// An extension without a line: the place among the lines of the one whose plan it extends, and the fault that it adds.
#[derive(Drop)]
pub struct Missing {
    pub at: u64,
    pub index: Index,
    pub reply: Reply,
}
