// What there is to say about a set file.
ghost use Rattle.set_report.specs.Reports.{Reports};

use crate::bounds::{BoundingBox, bounding_box};
use set_file::{FileFault, LIBRARY_LIMIT};
use std::alloc::Global;

// What was read, and why no more.
#[derive(Clone, Copy, Debug, PartialEq, Eq)]
pub struct Report {
    pub points: usize,
    pub triangles: usize,
    pub bounds: Option<BoundingBox>,
    pub fault: Option<FileFault>,
}

// Reads a set file into lists of its own, and reports on them.
pub fn report_on(heap: Global, bytes: &[u8]) -> Report
    ensures { Reports bytes.now result }
{
    let mut points = Vec::new(heap);
    let mut triangles = Vec::new(heap);
    let fault = set_file::read(bytes, LIBRARY_LIMIT, &mut points, &mut triangles).err();
    Report {
        points: points.len(),
        triangles: triangles.len(),
        bounds: bounding_box(&points),
        fault,
    }
}
