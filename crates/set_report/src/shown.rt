// A word of a file as text: a file may hold any bytes, and a terminal should not.
ghost use Rattle.std.specs.Prelude.{◌≡◌, IfOk, string_bytes, Some};
ghost use Rattle.set_report.specs.Shown.{shown_byte, shown_bytes, shown_of};

use std::alloc::{AllocError, Global};
use std::fmt;

// How many bytes of a word are shown.
const SHOWN_BYTES: usize = 40;

// A byte as itself or, where it is no visible ASCII character, as `\x` and two digits.
#[derive(Clone, Copy)]
struct ShownByte(u8);

impl fmt::Display for ShownByte {
    ghost output = { λ b. Some (shown_byte b.0) };

    #[tactic(auto, using(std::proofs::lemmas::Fmt::hex_byte))]
    fn fmt<W: fmt::Write>(&self, f: &mut fmt::Formatter<W>) -> fmt::Result {
        let b = self.0;
        if b.is_ascii_graphic() && b != b'\\' {
            f.write_char(char::from(b))
        } else {
            write!(f, "\\x{b:02x}")
        }
    }
}

// Some bytes, each as it is shown.
#[derive(Clone, Copy)]
struct ShownBytes<'a>(&'a [u8]);

impl fmt::Display for ShownBytes<'_> {
    ghost output = { λ bytes. Some (shown_bytes bytes.0.now) };

    fn fmt<W: fmt::Write>(&self, f: &mut fmt::Formatter<W>) -> fmt::Result {
        // A `for`, since each turn writes, and a closure that does so needs clauses of its own.
        for &b in self.0 {
            write!(f, "{}", ShownByte(b))?;
        }
        Ok(())
    }
}

// The first bytes of a word, and three dots where there are more.
#[derive(Clone, Copy)]
pub(crate) struct Shown<'a>(pub(crate) &'a [u8]);

impl fmt::Display for Shown<'_> {
    ghost output = { λ word. Some (shown_of word.0.now) };

    fn fmt<W: fmt::Write>(&self, f: &mut fmt::Formatter<W>) -> fmt::Result {
        let word = self.0;
        match word.split_at_checked(SHOWN_BYTES) {
            Some((head, [_, ..])) => write!(f, "{}...", ShownBytes(head)),
            _ => write!(f, "{}", ShownBytes(word)),
        }
    }
}

// The word as visible text.
pub fn shown_word(heap: Global, word: &[u8]) -> Result<String, AllocError>
    ensures { IfOk result (λ t. string_bytes t ≡ shown_of word.now) }
{
    Shown(word).to_string(heap)
}
