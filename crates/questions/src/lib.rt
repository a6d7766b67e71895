// The questions: where an address goes, whether one goes round, whether one node reaches another, and how many addresses end how.
#![tactic(auto)]

mod ask;
mod lead;
mod stand;
mod walk;

pub use ask::reply;
