// Edges: a half-edge and its twin are one edge, and so is a half-edge without a twin.
ghost use Rattle.std.specs.Prelude.{◌≡◌, ◌<◌, ◌≤◌};
ghost use Rattle.mesh_counts.specs.Edges.{counted, edges_below, edges_of};

use mesh::{Mesh, triangle_of};

// How many edges two triangles share, and how many belong to one alone.
#[derive(Clone, Copy, Debug, Default, PartialEq, Eq)]
pub struct Edges {
    pub shared: u32,
    pub border: u32,
}

// One half-edge more. Of two twins the higher one counts their edge.
fn count_one<M: Mesh>(mesh: &M, h: u32, edges: Edges) -> Edges
    requires shared { edges.shared < 196608 }
    requires border { edges.border < 196608 }
    ensures { result ≡ counted (M.Mesh.meaning mesh.now) h edges }
{
    if !mesh.present(triangle_of(h)) {
        return edges;
    }
    match mesh.twin(h) {
        None => Edges {
            border: edges.border + 1,
            ..edges
        },
        Some(g) if g < h => Edges {
            shared: edges.shared + 1,
            ..edges
        },
        Some(_) => edges,
    }
}

// The edges of the half-edges below `n`.
fn count_below<M: Mesh>(mesh: &M, n: u32) -> Edges
    requires { n ≤ 196608 }
    ensures { result ≡ edges_below (M.Mesh.meaning mesh.now) n }
{
    (0..n).fold(Edges::default(), |edges, h| count_one(mesh, h, edges))
}

// The edges of the present triangles.
pub fn count_edges<M: Mesh>(mesh: &M) -> Edges
    ensures { result ≡ edges_of (M.Mesh.meaning mesh.now) }
{
    count_below(mesh, 3 * mesh.triangles())
}
