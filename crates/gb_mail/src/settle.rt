//! What is done before replies leave a node.
/// Where it is kept what happened at a node.
pub trait Settle {
    /// Keeps all that happened at the node until now. Returns false if it cannot be kept: then no reply leaves any more.
    fn settle(&self) -> bool;
}

/// Nothing is kept.
#[derive(Clone, Copy)]
pub struct Unsettled;

impl Settle for Unsettled {
    fn settle(&self) -> bool {
        true
    }
}

impl<S: Settle> Settle for &S {
    fn settle(&self) -> bool {
        (**self).settle()
    }
}
