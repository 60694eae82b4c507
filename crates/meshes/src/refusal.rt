// Why a mesh is not made.
ghost use Rattle.std.specs.Prelude.{◌≡◌, Some};
ghost use Rattle.meshes.specs.Refusals.{number_of, question_of};

use std::error::Error;
use std::fmt;

// The question that was answered with no.
#[derive(Clone, Copy, Debug, PartialEq, Eq)]
pub enum MeshRefusal {
    // Are the settings and readings of a grid in limits?
    Grid = 9,
    // Do the lists keep the limits and rules of a mesh?
    Lists = 10,
}

impl MeshRefusal {
    // The number of the question: by rule every refusal has one.
    pub fn number(self) -> u32
        ensures { result ≡ number_of self }
    {
        self as u32
    }
}

// The question itself.
impl fmt::Display for MeshRefusal {
    ghost output = { λ refusal. Some (question_of refusal) };

    fn fmt<W: fmt::Write>(&self, f: &mut fmt::Formatter<W>) -> fmt::Result {
        f.write_str(match self {
            // The text as it is printed, numbers and all, so that it can be read here.
            MeshRefusal::Grid =>
                "are the grid's columns, rows and pitch in limits, with one reading for each point, each at most 10000?",
            MeshRefusal::Lists => "do the lists keep the limits and the rules of a mesh?",
        })
    }
}

impl Error for MeshRefusal {}
