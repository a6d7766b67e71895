// The hall: what it keeps, where its links end, and its rules by their parts.
ghost use Rattle.std.specs.Prelude.{◌≡◌, ◌≤◌};
ghost use Rattle.meaning.specs.Hall.{end_number, end_from};

use crate::Refusal;

// How far a hall is set up: before the hall record, while links come, once closed.
#[derive(Clone, Copy, PartialEq, Eq)]
pub enum Phase {
    Bare,
    Open,
    Closed,
}

// What the set-up records say: how many nodes and links there are, and the links by number, a word each.
#[derive(Clone, Copy)]
pub struct Plan {
    pub phase: Phase,
    pub nodes: u8,
    pub links: u8,
    pub link: [u16; 64],
}

// How many atoms there are, and their boundaries and numbers by rising address.
#[derive(Clone, Copy)]
pub struct Atoms {
    pub count: u16,
    pub cut: [u64; 513],
    pub number: [u16; 512],
}

// All that a hall keeps, in tables of a fixed size that the caller lends: beside its state (the plan, the rules by number, a word each, and the atoms)
// the labels and the owners, which the state determines. A caller may copy a hall, to go back to it; the box itself copies none.
#[derive(Clone, Copy)]
pub struct Hall {
    pub plan: Plan,
    pub rule: [u64; 256],
    pub atoms: Atoms,
    pub label: [u64; 512],
    pub owner: [u16; 8192],
}

// Where a link ends.
#[derive(Clone, Copy)]
pub enum End {
    Node(u8),
    Port(u8),
    Drop,
}

// The number of an end, as a link's word has it.
impl From<End> for u16 {
    ghost from_gives = { λ end n. (n ≡ end_number end) × (n ≤ 512) };

    #[tactic(auto, unfolding(crate::specs::Hall::end_number))]
    fn from(end: End) -> u16 {
        match end {
            End::Node(v) => v as u16,
            End::Port(p) => 256 + p as u16,
            End::Drop => 512,
        }
    }
}

// The end of a link record's code and number.
impl TryFrom<(u8, u8)> for End {
    type Error = Refusal;

    ghost try_from_gives = { λ x r. r ≡ end_from x.0 x.1 };

    #[tactic(auto, unfolding(crate::specs::Hall::end_from))]
    fn try_from(x: (u8, u8)) -> Result<Self, Refusal> {
        match x {
            (0, node) => Ok(End::Node(node)),
            (1, port) => Ok(End::Port(port)),
            (2, 0) => Ok(End::Drop),
            _ => Err(Refusal::NoEnd),
        }
    }
}

// A rule's parts beside its number.
#[derive(Clone, Copy)]
pub struct Rule {
    pub link: u8,
    pub prefix: u32,
    pub length: u8,
    pub priority: u16,
}
