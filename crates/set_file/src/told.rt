// What faults and refusals say in words, to whoever wrote the file.
ghost use Rattle.std.specs.Prelude.{Some};
ghost use Rattle.set_file.specs.Questions.{word_question, line_question, refusal_text};

use crate::file::Refusal;
use crate::line::LineFault;
use crate::word::WordFault;
use mesh::{COORDINATE_LIMIT, ENTRY_LIMIT};
use std::error::Error;
use std::fmt;

// The question that the fault answers with no.
impl fmt::Display for WordFault {
    ghost output = { λ fault. Some (word_question fault) };

    fn fmt<W: fmt::Write>(&self, f: &mut fmt::Formatter<W>) -> fmt::Result {
        match self {
            WordFault::Form(_) => write!(
                f,
                "is the word a number of one to five digits, with or without a minus?"
            ),
            WordFault::Range(_) => write!(
                f,
                "is the number in range: after `v` from -{COORDINATE_LIMIT} to {COORDINATE_LIMIT}, after `f` an earlier point?"
            ),
        }
    }
}

impl Error for WordFault {}

// The question that the fault answers with no.
impl fmt::Display for LineFault {
    ghost output = { λ fault. Some (line_question fault) };

    fn fmt<W: fmt::Write>(&self, f: &mut fmt::Formatter<W>) -> fmt::Result {
        match self {
            LineFault::First(_) => write!(f, "is the first word `v` or `f`?"),
            LineFault::Count(_) => write!(f, "are there exactly three words after the first?"),
            LineFault::Word(fault) => write!(f, "{fault}"),
            LineFault::Same(_) => write!(f, "do the corners name three different points?"),
            LineFault::Full(_) => write!(f, "does the list hold fewer than {ENTRY_LIMIT} entries?"),
            LineFault::Memory(_) => write!(f, "is there memory for one more entry?"),
        }
    }
}

impl Error for LineFault {}

// Which question was answered with no, and where.
impl fmt::Display for Refusal {
    ghost output = { λ refusal. Some (refusal_text refusal) };

    fn fmt<W: fmt::Write>(&self, f: &mut fmt::Formatter<W>) -> fmt::Result {
        write!(
            f,
            "refused {} line {} word {}",
            self.number, self.at.line, self.at.word
        )
    }
}
