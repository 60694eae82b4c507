// The text of a report, for people.
ghost use Rattle.std.specs.Prelude.{◌≡◌, IfOk, string_bytes, Some};
ghost use Rattle.std.specs.Option.{option_map};
ghost use Rattle.set_report.specs.Texts.{file_question, named_word, verdict_text, report_text};

use crate::bounds::BoundingBox;
use crate::report::Report;
use crate::shown::Shown;
use set_file::{FileFault, LIBRARY_LIMIT, Refusal, word_at};
use std::alloc::{AllocError, Global};
use std::fmt;

// The question that a fault answers with no. How long a file may be is for its reader to say, here `report_on`.
#[derive(Clone, Copy)]
struct Question(FileFault);

impl fmt::Display for Question {
    ghost output = { λ question. Some (file_question question.0) };

    fn fmt<W: fmt::Write>(&self, f: &mut fmt::Formatter<W>) -> fmt::Result {
        match self.0 {
            FileFault::Size => write!(f, "is the file at most {LIBRARY_LIMIT} bytes long?"),
            FileFault::Line(fault) => write!(f, "{fault}"),
        }
    }
}

// The word that a refusal names, if it names one.
fn named_word<'a>(bytes: &'a [u8], refusal: Option<Refusal>) -> Option<&'a [u8]>
    ensures { option_map (λ x. x.now) result ≡ named_word bytes.now refusal }
{
    word_at(bytes, refusal?.at)
}

// Whether a file of these bytes can be loaded and, if not, why: what is refused and where, the question, and
// the word.
#[derive(Clone, Copy)]
struct Verdict<'a> {
    fault: Option<FileFault>,
    bytes: &'a [u8],
}

impl fmt::Display for Verdict<'_> {
    ghost output = { λ verdict. Some (verdict_text verdict.fault verdict.bytes.now) };

    fn fmt<W: fmt::Write>(&self, f: &mut fmt::Formatter<W>) -> fmt::Result {
        let Some(fault) = self.fault else {
            return writeln!(f, "this set can be loaded");
        };
        let refusal = fault.refusal();
        match refusal {
            Some(refusal) => writeln!(f, "{refusal}")?,
            None => writeln!(f, "out of memory")?,
        }
        writeln!(f, "question: {}", Question(fault))?;
        if let Some(word) = named_word(self.bytes, refusal) {
            writeln!(f, "word: {}", Shown(word))?;
        }
        Ok(())
    }
}

// A report on a file of these bytes, which tell the word that it shows.
#[derive(Clone, Copy)]
struct Text<'a> {
    report: &'a Report,
    bytes: &'a [u8],
}

impl fmt::Display for Text<'_> {
    ghost output = { λ text. Some (report_text text.report.now text.bytes.now) };

    fn fmt<W: fmt::Write>(&self, f: &mut fmt::Formatter<W>) -> fmt::Result {
        let Text { report, bytes } = *self;
        let Report {
            points,
            triangles,
            bounds,
            fault,
        } = *report;
        writeln!(f, "points: {points}\ntriangles: {triangles}")?;
        match bounds {
            Some(bounds) => writeln!(f, "box: {bounds}")?,
            None => writeln!(f, "box: none")?,
        }
        write!(f, "{}", Verdict { fault, bytes })
    }
}

// The text of a report on a file of these bytes.
pub fn report_text(heap: Global, report: &Report, bytes: &[u8]) -> Result<String, AllocError>
    ensures { IfOk result (λ t. string_bytes t ≡ report_text report.now bytes.now) }
{
    Text { report, bytes }.to_string(heap)
}
