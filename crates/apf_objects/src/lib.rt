//! Reads the FlowSchemas and PriorityLevelConfigurations of a cluster.
#![tactic(auto)]

mod cluster;
mod fault;
mod key;
mod level;
mod objects;
mod order;
mod own;
mod rule;
mod schema;
mod value;

pub use cluster::{Cluster, judge_objects, read_objects};
pub use fault::{ObjectFault, Place};
pub use key::ObjectKey;
pub use level::{Level, LevelSettings, MAX_SHARES, Queuing, Version};
pub use objects::{MAX_LEVELS, MAX_OBJECTS, ObjectKind};
pub use rule::{PathRule, ResourceRule, Rule, Subject};
pub use schema::{Distinguisher, MAX_PRECEDENCE, Schema};
