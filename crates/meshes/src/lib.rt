// The meshes that come with the module: a stored mesh over lists, with pairing to make its twin list; a depth
// grid over readings; a mirrored mesh over any mesh. What each means is in crate mesh and in docs/MESHES.md.
#![tactic(auto)]

mod fitting;
mod grid;
mod mirrored;
mod pairing;
mod refusal;
mod stored;

pub use grid::DepthGrid;
pub use mirrored::Mirrored;
pub use pairing::pair;
pub use refusal::MeshRefusal;
pub use stored::StoredMesh;
