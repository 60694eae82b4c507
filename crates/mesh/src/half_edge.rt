// Half-edges by their numbers, as the rules tell them: triangle t has 3t, 3t + 1 and 3t + 2.
ghost use Rattle.std.specs.Prelude.{◌≡◌, min};
ghost use Rattle.mesh.specs.HalfEdges.{triangle_of, next as next_of};
ghost use Rattle.mesh.specs.Model.{end_of};

use crate::interface::Mesh;
use crate::limits::PAST_HALF_EDGES;

// The triangle that a half-edge belongs to.
pub fn triangle_of(h: u32) -> u32
    ensures { result ≡ triangle_of h }
{
    h / 3
}

// The half-edge after it, in the same triangle. The highest number is no half-edge of any mesh, and stays.
pub fn next(h: u32) -> u32
    ensures { result ≡ min (next_of h) 4294967295 }
{
    if h % 3 == 2 {
        h - 2
    } else {
        h.saturating_add(1)
    }
}

// The point where a half-edge ends.
pub fn end_of<M: Mesh>(mesh: &M, h: u32) -> u32
    ensures { result ≡ end_of (M.Mesh.meaning mesh.now) h }
{
    if h >= PAST_HALF_EDGES {
        return 0;
    }
    mesh.start(next(h))
}
