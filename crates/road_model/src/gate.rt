/// What each part of a plan on several threads passes as it begins, so that a test can see that two of them run at once.
pub trait Gate: Sync {
    /// Called once at the start of each part: 0 and 1 are the two searches, and the pieces of the list of paths follow
    /// from 2 on. It may wait for another part.
    fn enter(&self, part: u32);
}

/// A gate that lets every part through at once.
#[derive(Clone, Copy, Debug, Default)]
pub struct FreeGate;

impl Gate for FreeGate {
    fn enter(&self, _part: u32) {}
}
