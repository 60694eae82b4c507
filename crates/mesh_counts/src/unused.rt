// Points that no triangle uses.
ghost use Rattle.std.specs.Prelude.{◌≡◌, ◌*◌, ◌≤◌, not, ◌++◌, length, drop, if◌then◌else◌, Some, None, count_by, nat_le};
ghost use Rattle.mesh_counts.specs.Unused.{marked, used_below, unused_of};

use mesh::{Mesh, triangle_of};

// Marks the point where a half-edge of a present triangle starts.
fn mark<M: Mesh>(mesh: &M, h: u32, used: &mut [bool])
    requires { length used.old ≡ (M.Mesh.meaning mesh.now).points }
    ensures { used.new ≡ marked (M.Mesh.meaning mesh.now) h used.old }
{
    if mesh.present(triangle_of(h)) {
        used[mesh.start(h) as usize] = true;
    }
}

// Marks all points that are used.
fn mark_all<M: Mesh>(mesh: &M, used: &mut [bool])
    requires { length used.old ≡ (M.Mesh.meaning mesh.now).points }
    ensures { used.new ≡ used_below (M.Mesh.meaning mesh.now) (3 * (M.Mesh.meaning mesh.now).triangles) }
{
    used.fill(false);
    // A `for`, since each turn writes into the marks.
    for h in 0..3 * mesh.triangles() {
        mark(mesh, h, used);
    }
}

fn count_unmarked(used: &[bool]) -> u32
    requires { length used.now ≤ 65536 }
    ensures { result ≡ count_by not used.now }
{
    used.iter().filter(|used| !**used).count() as u32
}

// How many points are no corner of a present triangle. It works in lent marks, one for each point, so that it wants
// no memory, and says none where these are too few.
pub fn count_unused<M: Mesh>(mesh: &M, marks: &mut [bool]) -> Option<u32>
    ensures says { result ≡ (if nat_le (M.Mesh.meaning mesh.now).points (length marks.old) then Some (unused_of (M.Mesh.meaning mesh.now)) else None) }
    ensures marks { marks.new ≡ (if nat_le (M.Mesh.meaning mesh.now).points (length marks.old) then used_below (M.Mesh.meaning mesh.now) (3 * (M.Mesh.meaning mesh.now).triangles) ++ drop (M.Mesh.meaning mesh.now).points marks.old else marks.old) }
{
    let (used, _rest) = marks.split_at_mut_checked(mesh.points() as usize)?;
    mark_all(mesh, used);
    Some(count_unmarked(used))
}
