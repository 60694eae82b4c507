// A word that stands for a number.
ghost use Rattle.std.specs.Prelude.{◌≡◌, ℤ, pos, negsuc, ◌≤ℤ◌, IfSome, Option};
ghost use Rattle.set_file.specs.Numbers.{unsigned_of, plus, number_of, Converts, converted, coordinate_of, corner_of};

use mesh::in_limits;

// Where a word stands: its line and its place in the line, both counted from 1.
#[derive(Clone, Copy, Debug, PartialEq, Eq)]
pub struct Place {
    pub line: usize,
    pub word: usize,
}

// What is wrong with a word that should be a number.
#[derive(Clone, Copy, Debug, PartialEq, Eq)]
pub enum WordFault {
    // It is no number of one to five digits, with or without a minus.
    Form(Place),
    // It is no coordinate within the limits, or no number of an earlier point.
    Range(Place),
}

// The number that one to five digits write.
// A loop: in a fold plain sums are not proved to fit, and checked ones test at each step what cannot happen.
fn digits(ds: &[u8]) -> Option<i32>
    ensures value { result ≡ plus (unsigned_of ds.now) }
    ensures small { IfSome result (λ v. (pos 0 ≤ℤ v) × (v ≤ℤ pos 99999)) }
{
    if ds.is_empty() || ds.len() > 5 {
        return None;
    }
    let mut n: u32 = 0;
    for &b in ds {
        n = n * 10 + char::from(b).to_digit(10)?;
    }
    i32::try_from(n).ok()
}

// The number that digits write, with or without a minus.
fn number(word: &[u8]) -> Option<i32>
    ensures value { result ≡ number_of word.now }
    ensures small { IfSome result (λ v. (negsuc 99998 ≤ℤ v) × (v ≤ℤ pos 99999)) }
{
    match word {
        [b'-', rest @ ..] => digits(rest).map(|n| -n),
        _ => digits(word),
    }
}

// What `convert` makes of the number that a word writes.
fn converted<T, F: FnOnce(i32) -> Option<T>>(
    word: &[u8],
    at: Place,
    convert: F,
) -> Result<T, WordFault>
    requires { F.IsAlwaysCallable convert }
    ensures { (h : ℤ → Option T) → Converts F.FnOnce convert h → result ≡ converted h (number_of word.now) at }
{
    let v = number(word).ok_or(WordFault::Form(at))?;
    convert(v).ok_or(WordFault::Range(at))
}

// A coordinate.
pub fn coordinate(word: &[u8], at: Place) -> Result<i32, WordFault>
    ensures { result ≡ coordinate_of word.now at }
{
    converted(word, at, |v| in_limits(v).then_some(v))
}

// The number of one of `points` earlier points: written from 1, given from 0.
pub fn corner(word: &[u8], points: usize, at: Place) -> Result<u32, WordFault>
    ensures { result ≡ corner_of word.now points at }
{
    converted(word, at, |v| {
        let n = u32::try_from(v).ok()?.checked_sub(1)?;
        ((n as usize) < points).then_some(n)
    })
}
