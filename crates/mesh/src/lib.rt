// Meshes: points, triangles and half-edges, and the interface that every mesh stands behind.
// What a mesh means and which rules it keeps is written down in specs/, and in docs/MESH.md.
#![tactic(auto)]

mod half_edge;
mod interface;
mod laws;
mod limits;

pub use half_edge::{end_of, next, triangle_of};
pub use interface::Mesh;
pub use laws::{mesh_examples, mesh_laws};
pub use limits::{COORDINATE_LIMIT, ENTRY_LIMIT, PAST_HALF_EDGES, in_limits};

// In a twin list: no twin. By rule a twin list is a lent list of 32-bit numbers, so it holds no `Option`.
pub const NO_TWIN: u32 = 4_294_967_295;

// A place, in whole centimetres; by default the origin.
#[derive(Clone, Copy, Debug, Default, PartialEq, Eq)]
pub struct Point {
    pub x: i32,
    pub y: i32,
    pub z: i32,
}

// The numbers of a triangle's three corners, counted from 0.
#[derive(Clone, Copy, Debug, PartialEq, Eq)]
pub struct Triangle {
    pub a: u32,
    pub b: u32,
    pub c: u32,
}
