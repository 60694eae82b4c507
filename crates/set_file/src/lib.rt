// Reads a set file: the points and triangles of a stage set, from bytes.
// The format is written down in specs/, from words to the whole file, and in docs/SET-FILE.md.
#![tactic(auto)]

mod file;
mod laws;
mod line;
mod locate;
mod token;
mod told;
mod word;

pub use file::{FileFault, LIBRARY_LIMIT, PROGRAM_LIMIT, Refusal, read};
pub use laws::{reading_examples, reading_laws};
pub use line::LineFault;
pub use locate::word_at;
pub use word::{Place, WordFault};
