// The word that stands at a place of a file, to show it to whoever wrote the file.
ghost use Rattle.std.specs.Prelude.{◌≡◌};
ghost use Rattle.std.specs.Option.{option_map};
ghost use Rattle.set_file.specs.Parts.{lines, words};
ghost use Rattle.set_file.specs.Places.{numbered, word_at};

use crate::line::Lines;
use crate::token::Words;
use crate::word::Place;

// Line `number` of a file, counted from 1.
fn line_at<'a>(bytes: &'a [u8], number: usize) -> Option<&'a [u8]>
    ensures { option_map (λ x. x.now) result ≡ numbered (lines bytes.now) number }
{
    Lines::new(bytes).nth(number.checked_sub(1)?)
}

// Word `number` of a line, counted from 1.
fn word_of<'a>(line: &'a [u8], number: usize) -> Option<&'a [u8]>
    ensures { option_map (λ x. x.now) result ≡ numbered (words line.now) number }
{
    Words::new(line).nth(number.checked_sub(1)?)
}

// The word at a place, if the file has one there.
pub fn word_at<'a>(bytes: &'a [u8], at: Place) -> Option<&'a [u8]>
    ensures { option_map (λ x. x.now) result ≡ word_at bytes.now at }
{
    word_of(line_at(bytes, at.line)?, at.word)
}
