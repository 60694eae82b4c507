// A whole set file, into the caller's lists.
ghost use Rattle.std.specs.Prelude.{◌≡◌, ◌≤◌, true, vec_capacity, OnErr};
ghost use Rattle.set_file.specs.declared.file.FileFault.TheVariants.{Line};
ghost use Rattle.set_file.specs.Files.{lists, short, Appended, Outgrown, Reads};
ghost use Rattle.set_file.specs.Refusals.{refusal_of};

use crate::line::{Before, Entry, LineFault, Lines};
use crate::word::{Place, WordFault};
use mesh::{Point, Triangle};

// How long a set file may be: for the library, and for the program that outlines a set.
pub const LIBRARY_LIMIT: usize = 1_048_576;

pub const PROGRAM_LIMIT: usize = 8_192;

// What is wrong with a file.
#[derive(Clone, Copy, Debug, PartialEq, Eq)]
pub enum FileFault {
    // It has more bytes than the limit.
    Size,
    // One of its lines is wrong.
    Line(LineFault),
}

// By rule a line's fault goes into the file's by `From`.
impl From<LineFault> for FileFault {
    ghost from_gives = { λ e r. r ≡ Line e };

    fn from(e: LineFault) -> FileFault {
        FileFault::Line(e)
    }
}

// What a fault tells: the number of the question that was answered with no, and where. By rule the form of a set file's
// refusals. The line is 0 where the question is not about one line, and the word where it is not about one word.
#[derive(Clone, Copy, Debug, PartialEq, Eq)]
pub struct Refusal {
    pub number: u32,
    pub at: Place,
}

impl FileFault {
    // What the fault tells; want of memory is no refusal of the format, and has no number.
    pub fn refusal(self) -> Option<Refusal>
        ensures { result ≡ refusal_of self }
    {
        let (number, line, word) = match self {
            FileFault::Size => (1, 0, 0),
            FileFault::Line(LineFault::First(line)) => (2, line, 1),
            FileFault::Line(LineFault::Count(line)) => (3, line, 0),
            FileFault::Line(LineFault::Word(WordFault::Form(at))) => (4, at.line, at.word),
            FileFault::Line(LineFault::Word(WordFault::Range(at))) => (5, at.line, at.word),
            FileFault::Line(LineFault::Same(line)) => (6, line, 0),
            FileFault::Line(LineFault::Full(line)) => (7, line, 0),
            FileFault::Line(LineFault::Memory(_)) => return None,
        };
        Some(Refusal {
            number,
            at: Place { line, word },
        })
    }
}

// Appends what line `at` adds. The lists stay apart, as those who call `read` hand them over.
fn append(
    entry: Option<Entry>,
    at: usize,
    points: &mut Vec<Point>,
    triangles: &mut Vec<Triangle>,
) -> Result<(), LineFault>
    ensures stored { Appended entry at (lists points.old triangles.old) (lists points.new triangles.new) result }
    ensures points_room { vec_capacity points.old ≤ vec_capacity points.new }
    ensures triangles_room { vec_capacity triangles.old ≤ vec_capacity triangles.new }
    ensures outgrown { OnErr result (Outgrown (vec_capacity points.old) (vec_capacity triangles.old) (lists points.old triangles.old)) }
{
    match entry {
        None => Ok(()),
        Some(Entry::Vertex(p)) => points.push(p).map_err(|_| LineFault::Memory(at)),
        Some(Entry::Face(t)) => triangles.push(t).map_err(|_| LineFault::Memory(at)),
    }
}

// Reads a file of at most `limit` bytes, and appends its points and triangles to the lists.
// At a fault the entries of the lines before it stay, and nothing else has changed.
// Lists that were given enough memory beforehand never want any.
pub fn read(
    bytes: &[u8],
    limit: usize,
    points: &mut Vec<Point>,
    triangles: &mut Vec<Triangle>,
) -> Result<(), FileFault>
    ensures reads { Reads limit bytes.now (lists points.old triangles.old) (lists points.new triangles.new) result }
    ensures outgrown { short result ≡ true → Outgrown (vec_capacity points.old) (vec_capacity triangles.old) (lists points.new triangles.new) }
{
    if bytes.len() > limit {
        return Err(FileFault::Size);
    }
    for (i, line) in Lines::new(bytes).enumerate() {
        let before = Before {
            line: i + 1,
            points: points.len(),
            triangles: triangles.len(),
        };
        append(before.entry(line)?, before.line, points, triangles)?;
    }
    Ok(())
}
