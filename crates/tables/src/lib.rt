// The tables: rules, atoms and the labels of links, how an insert and a remove change them, and which atom an address lies in.
#![tactic(auto)]

mod atom;
mod label;
mod link;
mod rule;
mod take;
mod update;

pub use atom::{Atom, Place, atom_at, atom_of};
pub use link::source_of;
pub use take::{take_insert, take_remove};
