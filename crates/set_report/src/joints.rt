// How the triangles of a set are joined. No report tells it yet: the test is the only caller.
ghost use Rattle.std.specs.Prelude.{◌≡◌, true, length, IfOk};
ghost use Rattle.mesh.specs.Stored.{set_fits, stored_fits, stored};
ghost use Rattle.mesh.specs.Pairing.{pairing};
ghost use Rattle.set_report.specs.Joints.{counts_of, joints_of};

use mesh::{NO_TWIN, Point, Triangle};
use mesh_counts::{Edges, count_edges, count_unused};
use meshes::{StoredMesh, pair};
use std::alloc::{AllocError, Global};

// The edges of the paired mesh, and how many points no triangle uses.
#[derive(Clone, Copy, Debug, PartialEq, Eq)]
pub struct Joints {
    pub edges: Edges,
    pub unused: u32,
}

// The twin list of triangles that keep the rules of a mesh.
#[tactic(auto, unfolding(mesh::specs::Stored::lists_fit))]
fn twins_of(heap: Global, points: &[Point], triangles: &[Triangle]) -> Result<Vec<u32>, AllocError>
    requires { set_fits points.now triangles.now ≡ true }
    ensures { IfOk result (λ v. v.items ≡ pairing triangles.now) }
{
    let mut twins = vec![in heap; NO_TWIN; 3 * triangles.len()]?;
    pair(points, triangles, &mut twins).unwrap();
    Ok(twins)
}

// Counts over the stored mesh of lists that keep all rules, with a mark for each point.
fn count<'a>(
    points: &'a [Point],
    triangles: &'a [Triangle],
    twins: &'a [u32],
    marks: &mut [bool],
) -> Joints
    requires lists { stored_fits points.now triangles.now twins.now ≡ true }
    requires marks { length marks.old ≡ length points.now }
    ensures { result ≡ counts_of (stored points.now triangles.now twins.now) }
{
    let mut mesh = StoredMesh::empty();
    mesh.fill(points, triangles, twins).unwrap();
    let unused = count_unused(&mesh, marks).unwrap();
    Joints {
        edges: count_edges(&mesh),
        unused,
    }
}

// Pairs a set that keeps the rules of places and corners, and counts. It finds memory, or gives up.
#[tactic(auto, using(mesh::proofs::PairedRules::pairs_stand), unfolding(crate::specs::Joints::joints_of))]
pub(crate) fn joints_of(
    heap: Global,
    points: &[Point],
    triangles: &[Triangle],
) -> Result<Joints, AllocError>
    requires { set_fits points.now triangles.now ≡ true }
    ensures { IfOk result (λ j. j ≡ joints_of points.now triangles.now) }
{
    let twins = twins_of(heap, points, triangles)?;
    let mut marks = vec![in heap; false; points.len()]?;
    Ok(count(points, triangles, &twins, &mut marks))
}

#[cfg(test)]
mod tests;
