// What is written for every mesh works over this one.
use crate::Fan;
use mesh::Mesh;
use mesh_counts::{Edges, count_edges, count_unused};
use meshes::Mirrored;

#[test]
fn counts_over_a_fan(rt: HostRuntime) {
    let mut marks = [false; 102];
    for blades in [1, 2, 3, 100, 101] {
        let fan = Fan::new(blades);
        let n = fan.triangles();
        assert_eq!(rt; n, blades.min(100));
        let edges = count_edges(&fan);
        assert_eq!(rt;
            edges,
            Edges {
                shared: n.saturating_sub(1),
                border: n.saturating_add(2),
            }
        );
        assert_eq!(rt; count_edges(&Mirrored::new(&fan)), edges);
        assert_eq!(rt; count_unused(&fan, &mut marks), Some(0));
    }
    // without blades its two points are unused
    assert_eq!(rt; count_unused(&Fan::new(0), &mut marks), Some(2));
    // one mark too few
    assert_eq!(rt; count_unused(&Fan::new(1), &mut [true; 2]), None);
}

#[test]
fn a_fan_mirrored_twice(rt: HostRuntime) {
    let fan = Fan::new(5);
    let mirrored = Mirrored::new(&fan);
    let twice = Mirrored::new(&mirrored);
    for n in 0..20 {
        assert_eq!(rt; twice.start(n), fan.start(n));
        assert_eq!(rt; twice.twin(n), fan.twin(n));
        assert_eq!(rt; twice.place(n), fan.place(n));
        assert_eq!(rt; twice.present(n), fan.present(n));
    }
}
