// The types of the box: what it keeps, the records that it reads and the answers that it gives.
#![tactic(auto)]

ghost use Rattle.std.specs.Prelude.{◌≡◌};
ghost use Rattle.meaning.specs.Answers.{number_of};

mod hall;

pub use hall::{Atoms, End, Hall, Phase, Plan, Rule};

// How many words a lent change list must have room for: an entry of five for each of 512 atoms.
pub const LIST_ROOM: usize = 2560;

// What stands for no link in a change list, where a link is a number below 64.
pub const NO_LINK: u64 = 64;

// What becomes of a packet: out by a link or lost at a node, each with the hops made; or round for ever.
#[derive(Clone, Copy)]
pub enum Fate {
    Out(u8, u8),
    Lost(u8, u8),
    Round,
}

// Why a record is refused, in the order of the document's numbers, which begin at 0.
#[derive(Clone, Copy, PartialEq, Eq)]
pub enum Refusal {
    // the lent change list has room for fewer than 512 entries
    ShortList,
    // kind 0 or above 9
    UnknownKind,
    // fewer bytes left than the body needs
    CutOff,
    // kind out of its order
    OutOfOrder,
    // node count 0 or above 16, or a node number not below the count
    NoNode,
    // insert names an undeclared link
    NoLink,
    // 64 links are declared already
    LinksFull,
    // end code above 2, or drop with a number other than 0
    NoEnd,
    // rule number above 255
    NoRule,
    // insert: number is live
    RuleLive,
    // remove: number is not live
    RuleNotLive,
    // length above 32, or a one bit in the prefix below its length
    NoPrefix,
    // a live rule at the same node overlaps with equal priority
    Tie,
    // more than 511 inner boundaries would exist
    CutsFull,
}

// The document's number of a refusal.
impl From<Refusal> for u8 {
    ghost from_gives = { λ why n. n ≡ number_of why };

    fn from(why: Refusal) -> u8 {
        why as u8
    }
}

// What a record is answered with.
#[derive(Clone, Copy)]
pub enum Answer {
    End,
    Refused(Refusal),
    Ok,
    Changed(u16),
    Loop(u64, u8),
    NoLoop,
    Went(Fate),
    Yes(u64),
    No,
    Tally(u64, u64, u64),
}

// A record, with its fields in the document's order.
#[derive(Clone, Copy)]
pub enum Record {
    Hall(u8),
    Link(u8, u8, u8),
    Close,
    Insert(u16, u8, u32, u8, u16),
    Remove(u16),
    Loop,
    Fate(u8, u32),
    Reach(u8, u8),
    Tally(u8),
}

// What the bytes from a place on begin with: a record, with how many bytes it has; nothing, for want of bytes; or what is refused.
pub type Read = Result<Option<(Record, usize)>, Refusal>;

// What is read at a place of a stream, and the place after it.
#[derive(Clone, Copy)]
pub struct Placed {
    pub read: Read,
    pub place: usize,
}

// What a step returns: the answer, and how many bytes it went past.
#[derive(Clone, Copy)]
pub struct Step {
    pub answer: Answer,
    pub passed: usize,
}

// What a run over a whole stream returns: how many records it went past, and the answer that it stopped at.
#[derive(Clone, Copy)]
pub struct Ran {
    pub past: usize,
    pub stopped: Answer,
}
