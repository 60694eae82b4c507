// What there is to say about a set file, and the text that says it.
#![tactic(auto)]

mod bounds;
mod joints;
mod report;
mod shown;
mod text;

pub use bounds::{BoundingBox, bounding_box, bounds_law};
pub use report::{Report, report_on};
pub use shown::shown_word;
pub use text::report_text;
