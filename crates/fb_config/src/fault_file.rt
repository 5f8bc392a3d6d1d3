use crate::fault_item::FaultItem;
use fb_base::List;

/// What a fault file says.
#[derive(Drop)]
pub struct FaultFile {
    pub version: u32,
    pub items: List<FaultItem>,
}
