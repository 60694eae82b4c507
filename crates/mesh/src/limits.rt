// The limits of a mesh.
ghost use Rattle.std.specs.Prelude.{◌≡◌};
ghost use Rattle.mesh.specs.Model.{in_limits};

// How far from 0 a coordinate may lie, in centimetres.
pub const COORDINATE_LIMIT: i32 = 10_000;

// How many points a mesh may have, and how many triangles.
pub const ENTRY_LIMIT: usize = 65_536;

// The half-edges of every mesh lie below this: three times the most triangles.
pub const PAST_HALF_EDGES: u32 = 196_608;

// Whether a coordinate lies within its limits.
pub fn in_limits(coordinate: i32) -> bool
    ensures { result ≡ in_limits coordinate }
{
    (-COORDINATE_LIMIT..=COORDINATE_LIMIT).contains(&coordinate)
}
