// A line, and the entry that it adds.
ghost use Rattle.std.specs.Prelude.{◌≡◌, ℕ, List, Result};
ghost use Rattle.set_file.specs.declared.word.Place.{Place};
ghost use Rattle.set_file.specs.declared.word.WordFault.{WordFault};
ghost use Rattle.std.specs.Iterator.{YieldsFirstRef, item_count};
ghost use Rattle.std.specs.Option.{option_map};
ghost use Rattle.set_file.specs.declared.line.LineFault.TheVariants.{Word};
ghost use Rattle.set_file.specs.Parts.{lines, words};
ghost use Rattle.set_file.specs.Lines.{ReadsAs, trio, three_of, triple, place, vertex_of, face_of, keyed_of, entry_of};

use crate::token::{Token, Words, cut};
use crate::word::{Place, WordFault, coordinate, corner};
use mesh::{ENTRY_LIMIT, Point, Triangle};
use std::marker::Model;

// The lines of a file, from the front on: in contracts the list of those that are left.
// The library's `split` would give one empty line more, behind a last LF and in an empty file.
#[derive(Debug, Drop)]
pub struct Lines<'a>(&'a [u8]);

impl<'a> Model for Lines<'a> {
    ghost Value = { List (List ℕ) };

    ghost view = { λ s. lines s.0.now };
}

impl<'a> Lines<'a> {
    pub fn new(bytes: &'a [u8]) -> Lines<'a>
        ensures { result ≡ lines bytes.now }
    {
        Lines(bytes)
    }
}

impl<'a> Iterator for Lines<'a> {
    type Item = &'a [u8];

    ghost next_gives = { YieldsFirstRef (λ rest. rest) };

    ghost remaining = { item_count (λ rest. rest) };

    fn next(&mut self) -> Option<&'a [u8]> {
        if self.0.is_empty() {
            return None;
        }
        let (line, after) = cut(self.0, |b| b == b'\n');
        // The LF itself belongs to no line.
        self.0 = after.get(1..).unwrap_or_default();
        Some(line)
    }
}

// What a line adds to the lists.
#[derive(Clone, Copy, Debug, PartialEq, Eq)]
pub enum Entry {
    Vertex(Point),
    Face(Triangle),
}

// What is wrong with a line. The number is the line's, counted from 1.
#[derive(Clone, Copy, Debug, PartialEq, Eq)]
pub enum LineFault {
    // The first word is neither `v` nor `f`.
    First(usize),
    // It has not exactly three words after the first.
    Count(usize),
    // One of the three words is wrong.
    Word(WordFault),
    // Two corners are the same point.
    Same(usize),
    // The list has 65,536 entries or more.
    Full(usize),
    // The list found no memory for one more.
    Memory(usize),
}

// By rule a word's fault goes into the line's by `From`, and that into the file's.
impl From<WordFault> for LineFault {
    ghost from_gives = { λ e r. r ≡ Word e };

    fn from(e: WordFault) -> LineFault {
        LineFault::Word(e)
    }
}

// The words that are left, if they are three.
fn just_three<'a>(mut rest: Words<'a>) -> Option<(&'a [u8], &'a [u8], &'a [u8])>
    ensures { option_map trio result ≡ three_of rest.entry }
{
    let three = (rest.next()?, rest.next()?, rest.next()?);
    rest.next().is_none().then_some(three)
}

// Where a line stands: its number, and how many points and triangles the lists hold before it.
#[derive(Clone, Copy, Debug)]
pub struct Before {
    pub line: usize,
    pub points: usize,
    pub triangles: usize,
}

impl Before {
    // A word's place in the line.
    fn place(self, word: usize) -> Place
        ensures { result ≡ place self.line word }
    {
        Place {
            line: self.line,
            word,
        }
    }

    // What `read` makes of the three words that are left of the line.
    fn three<T: Copy, F: Fn(&[u8], Place) -> Result<T, WordFault>>(
        self,
        rest: Words,
        read: F,
    ) -> Result<(T, T, T), LineFault>
        requires { F.IsAlwaysCallable read }
        ensures { (h : List ℕ → Place → Result T WordFault) → ReadsAs F.Fn read h → result ≡ triple h self.line (three_of rest.entry) }
    {
        let (a, b, c) = just_three(rest).ok_or(LineFault::Count(self.line))?;
        let x = read(a, self.place(2))?;
        let y = read(b, self.place(3))?;
        let z = read(c, self.place(4))?;
        Ok((x, y, z))
    }

    // The rest of a line that begins with `v`.
    fn vertex(self, rest: Words) -> Result<Entry, LineFault>
        ensures { result ≡ vertex_of rest.entry self.line self.points }
    {
        let (x, y, z) = self.three(rest, coordinate)?;
        if self.points >= ENTRY_LIMIT {
            return Err(LineFault::Full(self.line));
        }
        Ok(Entry::Vertex(Point { x, y, z }))
    }

    // The rest of a line that begins with `f`.
    fn face(self, rest: Words) -> Result<Entry, LineFault>
        ensures { result ≡ face_of rest.entry self.line self.points self.triangles }
    {
        let (a, b, c) = self.three(rest, |word, at| corner(word, self.points, at))?;
        if a == b || b == c || c == a {
            return Err(LineFault::Same(self.line));
        }
        if self.triangles >= ENTRY_LIMIT {
            return Err(LineFault::Full(self.line));
        }
        Ok(Entry::Face(Triangle { a, b, c }))
    }

    // A line whose first word is `word`.
    fn keyed(self, word: &[u8], rest: Words) -> Result<Entry, LineFault>
        ensures { result ≡ keyed_of word.now rest.entry self.line self.points self.triangles }
    {
        let &[key] = word else {
            return Err(LineFault::First(self.line));
        };
        // Characters as cases, by rule.
        match char::from(key) {
            'v' => self.vertex(rest),
            'f' => self.face(rest),
            _ => Err(LineFault::First(self.line)),
        }
    }

    // The entry that the line adds, if it adds one.
    pub fn entry(self, line: &[u8]) -> Result<Option<Entry>, LineFault>
        ensures { result ≡ entry_of line.now self.line self.points self.triangles }
    {
        let mut words = Words::new(line);
        match words.next().map(Token::from) {
            None | Some(Token::Comment(_)) => Ok(None),
            Some(Token::Word(word)) => self.keyed(word, words).map(Some),
        }
    }
}
