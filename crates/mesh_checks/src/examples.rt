// Small meshes, and lists and settings at the edge of what makes a mesh.
use mesh::{Mesh, NO_TWIN, Point, Triangle, end_of, next};
use meshes::{DepthGrid, MeshRefusal, Mirrored, StoredMesh, pair};
use std::fmt::Debug;
use std::process::Abort;
use std::test::Fail;

const fn at(x: i32, y: i32, z: i32) -> Point {
    Point { x, y, z }
}

const fn corners(a: u32, b: u32, c: u32) -> Triangle {
    Triangle { a, b, c }
}

// The corners of a square. A constant calls no function, so points and triangles are written out here.
const SQUARE: [Point; 4] = [
    Point { x: 0, y: 0, z: 0 },
    Point { x: 100, y: 0, z: 0 },
    Point {
        x: 100,
        y: 100,
        z: 0,
    },
    Point { x: 0, y: 100, z: 0 },
];

// Two triangles over it.
const HALVES: [Triangle; 2] = [Triangle { a: 0, b: 1, c: 2 }, Triangle { a: 0, b: 2, c: 3 }];

// Their twins as a list of the mesh holds them, and as the mesh replies them, up to one past the last half-edge.
const PAIRED: [u32; 6] = [NO_TWIN, NO_TWIN, 3, 2, NO_TWIN, NO_TWIN];

const JOINED: [Option<u32>; 7] = [None, None, Some(3), Some(2), None, None, None];

// What is replied about the numbers from 0 on.
fn replies_are<T: Copy + Debug + PartialEq, F: Fn(u32) -> T>(
    rt: &impl Abort,
    reply: F,
    expected: &[T],
)
    requires { F.IsAlwaysCallable reply }
{
    for (n, &expected) in (0..).zip(expected) {
        assert_eq!(rt; reply(n), expected);
    }
}

// Where the first half-edges of a mesh start, and that each ends where the next one starts.
fn starts_are<M: Mesh>(rt: &impl Abort, mesh: &M, starts: &[u32]) {
    replies_are(rt, |h| mesh.start(h), starts);
    for (h, _) in (0..).zip(starts) {
        assert_eq!(rt; end_of(mesh, h), mesh.start(next(h)));
    }
}

fn twins_are<M: Mesh>(rt: &impl Abort, mesh: &M, twins: &[Option<u32>]) {
    replies_are(rt, |h| mesh.twin(h), twins);
}

// The numbers past the end of every mesh.
fn replies_past_the_end<M: Mesh>(rt: &impl Abort, mesh: &M) {
    for n in [65_536, 196_607, 196_608, 4_294_967_294, 4_294_967_295] {
        assert_eq!(rt; mesh.start(n), 0);
        assert_eq!(rt; end_of(mesh, n), 0);
        assert_eq!(rt; mesh.twin(n), None);
        assert_eq!(rt; mesh.place(n), at(0, 0, 0));
        assert!(rt; !mesh.present(n));
    }
}

// These lists make a stored mesh.
fn makes<'a>(rt: &impl Abort, points: &'a [Point], triangles: &'a [Triangle], twins: &'a [u32]) {
    let mut mesh = StoredMesh::empty();
    assert_eq!(rt; mesh.fill(points, triangles, twins), Ok(()));
}

// Pairing gives this list, whatever the list held, and it makes a stored mesh.
fn pairs(
    rt: &(impl Abort + AllocGlobal),
    points: &[Point],
    triangles: &[Triangle],
    paired: &[u32],
) -> Result<(), Fail> {
    let mut twins = vec![in rt.alloc(); 7; paired.len()]?;
    assert_eq!(rt; pair(points, triangles, &mut twins), Ok(()));
    assert_eq!(rt; &twins[..], paired);
    makes(rt, points, triangles, paired);
    Ok(())
}

#[test]
fn pairings(rt: HostRuntime) -> Result<(), Fail> {
    let points = [Point::default(); 4];
    pairs(&rt, &SQUARE, &HALVES, &PAIRED)?;
    // a triangle folded onto itself
    pairs(
        &rt,
        &points,
        &[corners(0, 1, 2), corners(0, 2, 1)],
        &[5, 4, 3, 2, 1, 0],
    )?;
    // the same way twice is no pair
    pairs(
        &rt,
        &points,
        &[corners(0, 1, 2), corners(0, 1, 3)],
        &[NO_TWIN; 6],
    )?;
    pairs(&rt, &[], &[], &[])
}

#[test]
fn panels_on_one_side(rt: HostRuntime) -> Result<(), Fail> {
    let points = [Point::default(); 6];
    // three panels on one side: the first two are joined
    pairs(
        &rt,
        &points,
        &[corners(0, 1, 2), corners(1, 0, 3), corners(1, 0, 4)],
        &[
            3, NO_TWIN, NO_TWIN, 0, NO_TWIN, NO_TWIN, NO_TWIN, NO_TWIN, NO_TWIN,
        ],
    )?;
    // four panels: each of the first two has the lowest that is left
    pairs(
        &rt,
        &points,
        &[
            corners(0, 1, 2),
            corners(0, 1, 3),
            corners(1, 0, 4),
            corners(1, 0, 5),
        ],
        &[
            6, NO_TWIN, NO_TWIN, 9, NO_TWIN, NO_TWIN, 0, NO_TWIN, NO_TWIN, 3, NO_TWIN, NO_TWIN,
        ],
    )
}

// Refused, pairing leaves the list as it was.
fn unpaired(
    rt: &(impl Abort + AllocGlobal),
    points: &[Point],
    triangles: &[Triangle],
    size: usize,
) -> Result<(), Fail> {
    let mut twins = vec![in rt.alloc(); 7; size]?;
    let before = vec![in rt.alloc(); 7; size]?;
    assert_eq!(rt;
        pair(points, triangles, &mut twins),
        Err(MeshRefusal::Lists)
    );
    assert_eq!(rt; twins, before);
    Ok(())
}

#[test]
fn refused_pairings(rt: HostRuntime) -> Result<(), Fail> {
    assert_eq!(rt; MeshRefusal::Lists.number(), 10);
    let many = vec![in rt.alloc(); Point::default(); 65_537]?;
    let refused: [(&[Point], &[Triangle], usize); 8] = [
        (&SQUARE, &HALVES, 5),
        (&SQUARE, &HALVES, 7),
        (&SQUARE, &[corners(0, 1, 4)], 3),
        (&SQUARE, &[corners(0, 1, 1)], 3),
        (&SQUARE, &[corners(2, 1, 2)], 3),
        (&[at(0, 0, 10_001)], &[], 0),
        (&[at(0, -10_001, 0)], &[], 0),
        (&many, &[], 0),
    ];
    for (points, triangles, size) in refused {
        unpaired(&rt, points, triangles, size)?;
    }
    pairs(&rt, &[at(10_000, -10_000, 0)], &[], &[])?;
    pairs(&rt, &many[1..], &[], &[])
}

#[test]
fn stored_meshes(rt: HostRuntime) -> Result<(), Fail> {
    let mut mesh = StoredMesh::empty();
    assert_eq!(rt; mesh.triangles(), 0);
    assert_eq!(rt; mesh.points(), 0);
    replies_past_the_end(&rt, &mesh);
    mesh.fill(&SQUARE, &HALVES, &PAIRED)?;
    assert_eq!(rt; mesh.triangles(), 2);
    assert_eq!(rt; mesh.points(), 4);
    assert!(rt; mesh.present(0) && mesh.present(1) && !mesh.present(2));
    assert_eq!(rt; mesh.place(2), at(100, 100, 0));
    starts_are(&rt, &mesh, &[0, 1, 2, 0, 2, 3, 0]);
    twins_are(&rt, &mesh, &JOINED);
    replies_past_the_end(&rt, &mesh);
    // refused lists leave the mesh as it was: a twin that is not mutual, one that runs along, one past the end
    let refused: [&[u32]; 4] = [
        &[NO_TWIN, NO_TWIN, 3, NO_TWIN, NO_TWIN, NO_TWIN],
        &[NO_TWIN, 3, NO_TWIN, 1, NO_TWIN, NO_TWIN],
        &[NO_TWIN, NO_TWIN, 6, NO_TWIN, NO_TWIN, NO_TWIN],
        &[],
    ];
    for twins in refused {
        assert_eq!(rt; mesh.fill(&SQUARE, &HALVES, twins), Err(MeshRefusal::Lists));
    }
    assert_eq!(rt; mesh.triangles(), 2);
    twins_are(&rt, &mesh, &JOINED);
    Ok(())
}

// Twin 0 is a twin like any other.
#[test]
fn mirrored_meshes(rt: HostRuntime) -> Result<(), Fail> {
    let mut square = StoredMesh::empty();
    square.fill(&SQUARE, &HALVES, &PAIRED)?;
    let mirrored = Mirrored::new(&square);
    assert_eq!(rt; mirrored.triangles(), 2);
    assert_eq!(rt; mirrored.points(), 4);
    assert_eq!(rt; mirrored.place(1), at(-100, 0, 0));
    starts_are(&rt, &mirrored, &[0, 2, 1, 0, 3, 2, 0]);
    twins_are(
        &rt,
        &mirrored,
        &[Some(5), None, None, None, None, Some(0), None],
    );
    replies_past_the_end(&rt, &mirrored);
    let twice = Mirrored::new(&mirrored);
    assert_eq!(rt; twice.place(1), at(100, 0, 0));
    starts_are(&rt, &twice, &[0, 1, 2, 0, 2, 3, 0]);
    twins_are(&rt, &twice, &JOINED);
    Ok(())
}

#[test]
fn depth_grids(rt: HostRuntime) -> Result<(), Fail> {
    let mut grid = DepthGrid::empty();
    assert_eq!(rt; grid.triangles(), 2);
    assert!(rt; !grid.present(0) && !grid.present(1));
    // one reading is missing: triangle 1 is absent
    grid.fill(2, 2, 50, &[10, 10, 10, 0])?;
    assert!(rt; grid.present(0) && !grid.present(1) && !grid.present(2));
    assert_eq!(rt; grid.points(), 4);
    assert_eq!(rt; grid.place(1), at(50, 0, 10));
    assert_eq!(rt; grid.place(3), at(50, 50, 0));
    starts_are(&rt, &grid, &[0, 1, 2, 0, 0, 0]);
    twins_are(&rt, &grid, &[None; 6]);
    replies_past_the_end(&rt, &grid);
    // two cells in a row, then in a column
    grid.fill(3, 2, 50, &[11, 12, 13, 14, 15, 16])?;
    assert_eq!(rt; grid.place(2), at(100, 0, 13));
    assert_eq!(rt; grid.place(3), at(0, 50, 14));
    starts_are(&rt, &grid, &[0, 1, 3, 4, 3, 1, 1, 2, 4, 5, 4, 2]);
    twins_are(
        &rt,
        &grid,
        &[
            None,
            Some(4),
            None,
            None,
            Some(1),
            Some(8),
            None,
            Some(10),
            Some(5),
            None,
            Some(7),
            None,
        ],
    );
    grid.fill(2, 3, 50, &[11, 12, 13, 14, 15, 16])?;
    starts_are(&rt, &grid, &[0, 1, 2, 3, 2, 1, 2, 3, 4, 5, 4, 3]);
    twins_are(
        &rt,
        &grid,
        &[
            None,
            Some(4),
            None,
            Some(6),
            Some(1),
            None,
            Some(3),
            Some(10),
            None,
            None,
            Some(7),
            None,
        ],
    );
    Ok(())
}

#[test]
fn grid_limits(rt: HostRuntime) -> Result<(), Fail> {
    assert_eq!(rt; MeshRefusal::Grid.number(), 9);
    let readings = vec![in rt.alloc(); 10_000u16; 32_761]?;
    let wide = &readings[..362];
    let mut grid = DepthGrid::empty();
    assert_eq!(rt; grid.fill(181, 181, 55, &readings), Ok(()));
    assert_eq!(rt; grid.triangles(), 64_800);
    assert_eq!(rt; grid.place(32_760), at(9_900, 9_900, 10_000));
    assert_eq!(rt; grid.fill(181, 2, 1, wide), Ok(()));
    assert_eq!(rt; grid.fill(2, 181, 1, wide), Ok(()));
    let full = &[1; 364];
    let refused: [(u32, u32, u32, &[u16]); 10] = [
        (182, 2, 1, full),
        (2, 182, 1, full),
        (1, 364, 1, full),
        (364, 1, 1, full),
        (0, 0, 1, full),
        (2, 2, 0, &[1, 1, 1, 1]),
        (2, 2, 56, &[1, 1, 1, 1]),
        (2, 2, 1, &[1, 1, 1]),
        (2, 2, 1, &[1, 1, 1, 1, 1]),
        (2, 2, 1, &[1, 1, 1, 10_001]),
    ];
    for (columns, rows, pitch, readings) in refused {
        assert_eq!(rt;
            grid.fill(columns, rows, pitch, readings),
            Err(MeshRefusal::Grid)
        );
    }
    assert_eq!(rt; grid.points(), 362);
    Ok(())
}
