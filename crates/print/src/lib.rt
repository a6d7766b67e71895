// Text into a lent buffer: numbers in decimal, and the lines that `hallcheck` prints.
#![tactic(auto)]

mod line;
mod number;

pub use line::{put_change, put_line, put_refusal};

// The most bytes that a line has: so much room a line asks for.
pub const ROOM: usize = 128;
