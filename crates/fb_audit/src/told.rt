//! What a plan line tells.
use fb_base::Reply;
use fb_index::Index;
use fb_tree::Outcome;

/// What a plan line tells.
#[derive(Drop)]
pub(crate) struct Told<'a> {
    pub parent: Option<u64>,
    pub fault: &'a Option<(Index, Reply)>,
    pub run: bool,
    pub uses: &'a [u64],
    pub outcome: &'a Outcome,
}
