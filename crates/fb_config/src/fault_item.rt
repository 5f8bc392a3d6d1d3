use fb_base::{List, Name, Reply};

/// An item of a fault file.
#[derive(Drop)]
pub struct FaultItem {
    /// The service whose methods it means.
    pub callee: Name,
    /// The one method that it means; where none is named it means all of the service.
    pub method: Option<Name>,
    /// The replies that it configures, in file order.
    pub replies: List<Reply>,
}
