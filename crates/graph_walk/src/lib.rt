//! Walks over a graph whose nodes are numbers from 0, given by the list of each node's targets.
#![tactic(auto)]

mod components;
mod depth_first;
mod laws;

pub use components::{level_at, levels};
pub use depth_first::{preorder, reaches};
pub use laws::{higher_is_not_reached, preorder_by_targets};
