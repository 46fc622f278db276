//! The lines of an input, each given once and in order, and entries dealt out to lanes.
//!
//! A log takes each line of its input as an entry. `Lines` reads an input block by block and cuts it at each newline.
//! What follows the last newline is a line if it isn't empty. A line of more than 65,535 bytes is too long for an
//! entry (C2SP tlog-tiles, "Log Entries"): it is reported by its number, counted from 0, and left out.
//!
//! `next` returns the next line and `take` a number of lines. `take_most` returns fewer when the input ends. `deal`
//! deals entries out to lanes in turn:
//!
//! ```rust
//! let mut reader = Counted::new(b"a cat\n\na dog".as_slice());
//! let mut lines = Lines::new(alloc)?;
//! let first = lines.take(&mut reader, 2)?; // "a cat" and the empty line
//! lines.next(&mut reader)?; // NextLine::Entry of "a dog"
//! let lanes = deal(alloc, first, 2)?; // "a cat" for the first lane, the empty line for the second
//! ```
//!
//! The input may be longer than memory: a `Lines` keeps one block and the beginning of one line. After a failed read
//! what was read before is kept, and a caller can go on.
#![tactic(auto)]

mod dealing;
mod fault;
mod laws;
mod lines;
mod newline;
mod next_line;

pub use dealing::deal;
pub use fault::LineFault;
pub use laws::{calls_tell_in_order, each_line_is_told, lines_are_the_input};
pub use lines::Lines;
pub use next_line::NextLine;
