//! Who looks at a run while its workers are at work.

/// Looks at a run while its workers are at work. Nothing of the run depends on it.
pub trait Watch {
    /// Whether it looks at all. If it does not, the workers are waited for and no more.
    fn looks(&self) -> bool;

    /// Lets a little time go by, and says whether it looks now. That all workers came to their ends is seen only after that.
    fn pause(&mut self) -> bool;

    /// So many requests came until now, of all rounds, and so many wait.
    fn look(&mut self, came: u64, waiting: u64);
}

/// Nobody looks.
#[derive(Clone, Copy)]
pub struct Nobody;

impl Watch for Nobody {
    fn looks(&self) -> bool {
        false
    }

    fn pause(&mut self) -> bool {
        false
    }

    fn look(&mut self, _came: u64, _waiting: u64) {}
}
