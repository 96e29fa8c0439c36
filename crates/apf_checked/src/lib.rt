//! Queues for tests and the bench, whose calls test what `apf_queue` asks of its callers.
#![tactic(auto)]

mod checked;

pub use checked::Checked;
