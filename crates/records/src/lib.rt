// Reading: the record that a stream begins with, and a reader that holds the caller's stream and its place. Nothing here has a premise.
#![tactic(auto)]

mod reader;
mod record;

pub use reader::{Reader, next_record, read_at, read_through, reader_over};
pub use record::read_record;
