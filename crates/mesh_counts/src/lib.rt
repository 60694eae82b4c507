// Counts over any mesh: shared and border edges, and points that no triangle uses.
#![tactic(auto)]

mod edges;
mod laws;
mod unused;

pub use edges::{Edges, count_edges};
pub use laws::count_laws;
pub use unused::count_unused;
