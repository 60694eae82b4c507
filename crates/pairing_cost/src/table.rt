// The lines of the table: what pairing one floor costs.
ghost use Rattle.std.specs.Prelude.{◌≡◌, if◌then◌else◌, Some, Ok, Err, IfOk};
ghost use Rattle.std.specs.Fmt.{padded};
ghost use Rattle.std.specs.List.Sorted.{IsPermutation};
ghost use Rattle.mesh.specs.Stored.{stored, stored_fits};
ghost use Rattle.mesh_counts.specs.Edges.{edges_of};
ghost use Rattle.pairing_cost.specs.Table.{order_name, line_text};
ghost use Rattle.pairing_cost.specs.Measured.{Measured};
ghost use Rattle.pairing_cost.specs.declared.table.Order.TheVariants.{Drawn};
ghost use Rattle.meshes.specs.declared.refusal.MeshRefusal.{MeshRefusal};

use crate::floor::Floor;
use anyhow::anyhow;
use mesh::{NO_TWIN, Point, Triangle};
use mesh_counts::{Edges, count_edges};
use meshes::{MeshRefusal, StoredMesh, pair};
use std::fmt;
use std::time::{Duration, Instant};

// The order in which the triangles of a floor stand in their list.
#[derive(Clone, Copy)]
pub enum Order {
    Drawn,
    Shuffled,
}

impl Order {
    // Brings triangles that stand as they are drawn into this order.
    fn arrange(self, triangles: &mut [Triangle])
        ensures same { IsPermutation triangles.old triangles.new }
        ensures drawn { self ≡ Drawn → triangles.new ≡ triangles.old }
    {
        match self {
            Order::Drawn => {}
            Order::Shuffled => shuffle(triangles),
        }
    }
}

impl fmt::Display for Order {
    ghost output = { λ order. Some (order_name order) };

    ghost styled_output = { λ order spec. Some (padded spec (order_name order)) };

    fn fmt<W: fmt::Write>(&self, f: &mut fmt::Formatter<W>) -> fmt::Result {
        f.pad(match self {
            Order::Drawn => "drawn",
            Order::Shuffled => "shuffled",
        })
    }
}

// Exchanges each triangle with one before it, always in the same way.
fn shuffle(triangles: &mut [Triangle])
    ensures { IsPermutation triangles.old triangles.new }
{
    let mut state: u64 = 1;
    // A `for`, since an exchange needs both places.
    for i in 1..triangles.len() {
        state = state
            .wrapping_mul(6364136223846793005)
            .wrapping_add(1442695040888963407);
        triangles.swap(i, (state >> 33) as usize % (i + 1));
    }
}

// The edges of a mesh over these lists, if they make one.
fn edges_of<'a>(
    points: &'a [Point],
    triangles: &'a [Triangle],
    twins: &'a [u32],
) -> Result<Edges, MeshRefusal>
    ensures { result ≡ (if stored_fits points.now triangles.now twins.now then Ok (edges_of (stored points.now triangles.now twins.now)) else Err MeshRefusal.Lists) }
{
    let mut mesh = StoredMesh::empty();
    mesh.fill(points, triangles, twins)?;
    Ok(count_edges(&mesh))
}

// What came of pairing one floor.
#[derive(Clone, Copy)]
pub struct Line {
    triangles: usize,
    order: Order,
    edges: Edges,
    pub time: Duration,
}

impl Line {
    // Pairs this floor, with its triangles in this order.
    pub fn of(rt: &HostRuntime, floor: Floor, order: Order) -> anyhow::Result<Line>
        ensures { IfOk result (Measured floor.columns floor.rows order) }
    {
        let heap = rt.alloc();
        let points = floor.points(heap)?;
        let mut triangles = floor.triangles(heap)?;
        order.arrange(&mut triangles);
        let mut twins = vec![in heap; NO_TWIN; 3 * triangles.len()]?;
        let start = Instant::now(rt)?;
        let paired = pair(&points, &triangles, &mut twins);
        let time = start.elapsed(rt)?;
        // Words of its own: by `?` alone the program would print the refusal's.
        paired.map_err(|_| anyhow!("this floor cannot be paired"))?;
        let counted = edges_of(&points, &triangles, &twins);
        let edges = counted.map_err(|_| anyhow!("this floor is no mesh"))?;
        Ok(Line {
            triangles: triangles.len(),
            order,
            edges,
            time,
        })
    }
}

// The line without its time, which no two runs share.
impl fmt::Display for Line {
    ghost output = { λ line. Some (line_text line.triangles line.order line.edges) };

    fn fmt<W: fmt::Write>(&self, f: &mut fmt::Formatter<W>) -> fmt::Result {
        write!(
            f,
            "{:>9} {:<8} {:>12} {:>12}",
            self.triangles, self.order, self.edges.shared, self.edges.border
        )
    }
}
