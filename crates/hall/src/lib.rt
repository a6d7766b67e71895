// The hall: one record from the caller's bytes, taken in its order.
#![tactic(auto)]

mod link;
mod step;

pub use step::take_record;
