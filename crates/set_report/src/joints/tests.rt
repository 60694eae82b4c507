// Memory is found, and the counts are those of a square of two triangles and a point beside it.
use super::{Joints, joints_of};
use mesh::{Point, Triangle};
use mesh_counts::Edges;
use std::test::Fail;

// A test of its own crate, so the square stands here once more.
const SQUARE: [Point; 5] = [
    Point { x: 0, y: 0, z: 0 },
    Point { x: 100, y: 0, z: 0 },
    Point {
        x: 100,
        y: 100,
        z: 0,
    },
    Point { x: 0, y: 100, z: 0 },
    Point { x: 300, y: 0, z: 0 },
];

const HALVES: [Triangle; 2] = [Triangle { a: 0, b: 1, c: 2 }, Triangle { a: 0, b: 2, c: 3 }];

#[test]
#[tactic(auto, unfolding(mesh::specs::Stored::set_fits))]
fn joints_of_a_square(rt: HostRuntime) -> Result<(), Fail> {
    let joints = joints_of(rt.alloc(), &SQUARE, &HALVES)?;
    let edges = Edges {
        shared: 1,
        border: 4,
    };
    assert_eq!(rt; joints, Joints { edges, unused: 1 });
    Ok(())
}
