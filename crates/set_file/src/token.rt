// The words of a line.
ghost use Rattle.std.specs.Prelude.{◌≡◌, ℕ, Bool, List, cond, take, drop};
ghost use Rattle.std.specs.List.{position_or_len};
ghost use Rattle.std.specs.Iterator.{YieldsFirstRef, item_count};
ghost use Rattle.set_file.specs.Parts.{Tests, blank, words};
ghost use Rattle.set_file.specs.declared.token.Token.TheVariants.{Comment, Word};
ghost use Rattle.set_file.specs.Tokens.{is_comment};

use std::marker::Model;

// A word by its kind, its bytes a part of the line: by a rule of the project an enum, whose cases hold the bytes.
#[derive(Clone, Copy, Debug)]
pub enum Token<'a> {
    // A word that begins with `#`.
    Comment(&'a [u8]),
    // Any other word.
    Word(&'a [u8]),
}

impl<'a> From<&'a [u8]> for Token<'a> {
    ghost from_gives = { λ w t. t ≡ cond (is_comment w.now) (Comment w) (Word w) };

    fn from(word: &'a [u8]) -> Token<'a> {
        match word {
            [b'#', ..] => Token::Comment(word),
            _ => Token::Word(word),
        }
    }
}

// A space or a tab.
fn is_blank(b: u8) -> bool
    ensures { result ≡ blank b }
{
    b == b' ' || b == b'\t'
}

// The bytes before the first that ends them, and those from it on.
pub(crate) fn cut<'a, F: Fn(u8) -> bool>(bytes: &'a [u8], ends: F) -> (&'a [u8], &'a [u8])
    requires { F.IsAlwaysCallable ends }
    ensures front { (p : ℕ → Bool) → Tests F.Fn ends p → result.0.now ≡ take (position_or_len p bytes.now) bytes.now }
    ensures back { (p : ℕ → Bool) → Tests F.Fn ends p → result.1.now ≡ drop (position_or_len p bytes.now) bytes.now }
{
    let size = bytes.iter().position(|&b| ends(b)).unwrap_or(bytes.len());
    bytes.split_at(size)
}

// The words of a line, from the front on: in contracts the list of those that are left. Apart from `Lines`, since words
// leave out what parts them, and a line may be empty.
// A chain of the library's would make each function over words generic.
#[derive(Debug, Drop)]
pub struct Words<'a>(&'a [u8]);

impl<'a> Model for Words<'a> {
    ghost Value = { List (List ℕ) };

    ghost view = { λ s. words s.0.now };
}

impl<'a> Words<'a> {
    pub fn new(line: &'a [u8]) -> Words<'a>
        ensures { result ≡ words line.now }
    {
        Words(line)
    }
}

impl<'a> Iterator for Words<'a> {
    type Item = &'a [u8];

    ghost next_gives = { YieldsFirstRef (λ rest. rest) };

    ghost remaining = { item_count (λ rest. rest) };

    fn next(&mut self) -> Option<&'a [u8]> {
        let (_, body) = cut(self.0, |b| !is_blank(b));
        let (word, rest) = cut(body, is_blank);
        self.0 = rest;
        (!word.is_empty()).then_some(word)
    }
}
