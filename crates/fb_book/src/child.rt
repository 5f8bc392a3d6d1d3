/// An extension of a plan: the plan's number, which of its row's calls fails, and which of the choices there it gets.
#[derive(Clone, Copy, PartialEq, Eq, Hash)]
pub struct Child {
    pub parent: u64,
    pub call: usize,
    pub choice: usize,
}
