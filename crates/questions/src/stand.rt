// The walks of all atoms from one node at once: sets of atoms, 64 to a word, carried along the links by their labels.
// A table of sets has rows of eight words, each row a set as a label is: row w for the atoms that stand at node w at some time, and behind
// the nodes' rows one for those that go out of the hall and one for those that are lost. For contracts the same numbers stand in
// `specs/Sets` of `lent`.
ghost use Rattle.std.specs.Prelude.{◌≡◌, ℕ, ◌<◌, length};
ghost use Rattle.meaning.specs.Hall.{zeroes};
ghost use Rattle.meaning.specs.Labels.{on};
ghost use Rattle.meaning.specs.Tables.{Laid};
ghost use Rattle.lent.specs.Sets.{rows, table_words};
ghost use Rattle.questions.specs.Standing.{Filled, JoinedRow, TakenAway, Leaving, Along, SettledBut, Round, Spread, Outward, Stayed, Gathered, Divided};

use meaning::{Hall, Plan};
use tables::Atom;

// The row of the atoms that go out of the hall, and that of the atoms that are lost.
pub const OUT_ROW: usize = 16;

pub const LOST_ROW: usize = 17;

// How many rows a table has.
const ROWS: usize = 18;

// The set of all atoms.
const ALL: [u64; 8] = [u64::MAX; 8];

// A table of sets. Its words are one list, as a label's are, for `Reached` and `Within` of `specs/Sets` read them so.
#[derive(Drop)]
pub struct Sets {
    words: [u64; 8 * ROWS],
}

// The set of the atoms on link l.
fn on_link(label: &[u64; 512], l: usize) -> &[u64]
    requires { l < 64 }
    ensures { (length result.now ≡ 8) × ((k : ℕ) → k < 512 → on result.now 0 k ≡ on label.now l k) }
{
    &label[8 * l..8 * l + 8]
}

// For each node the links that lead from it to a node, as a set, a bit for each link.
fn leaving_links(plan: &Plan) -> [u64; 16]
    requires { Laid plan.now }
    ensures { Leaving plan.now.link plan.now.links result }
{
    let mut leaving = [0u64; 16];
    for (l, &word) in plan.link[..plan.links as usize].iter().enumerate() {
        if word % 1024 < 16 {
            leaving[tables::source_of(word)] |= 1u64 << l;
        }
    }
    leaving
}

impl Sets {
    // A table of empty sets. What comes next fills and divides it in place, for speed: where a table with row v filled was returned, a tally
    // took 1.5 % more, and where the divided one was, 8 %.
    pub fn new() -> Sets
        ensures { result.words ≡ zeroes table_words }
    {
        Sets {
            words: [0; 8 * ROWS],
        }
    }

    // Whether an atom is in a row.
    pub fn has(&self, row: usize, atom: Atom) -> bool
        requires { (row < rows) × (atom.0 < 512) }
        ensures { result ≡ on self.now.words row atom.0 }
    {
        let k = atom.0 as usize;
        let w = self.words[8 * row + k / 64];
        (w >> (k % 64)) % 2 == 1
    }

    // Puts all atoms in row v of an empty table.
    fn fill(&mut self, v: usize)
        requires { (v < 16) × (self.old.words ≡ zeroes table_words) }
        ensures { Filled v self.new.words }
    {
        self.words[8 * v..8 * v + 8].fill(u64::MAX);
    }

    // The atoms of a source's row that are in a set join a row. Whether any of them is new there.
    // By index: the two rows are of one table, and what a zip of `iter_mut` wrote no proof knows (`take` was tried so).
    fn join(&mut self, source: usize, row: usize, set: &[u64]) -> bool
        requires { (source < 16) × (row < rows) × (length set.now ≡ 8) }
        ensures { JoinedRow (on set.now 0) source row self.old.words self.new.words result }
    {
        let mut more: u64 = 0;
        for j in 0..8 {
            let old = self.words[8 * row + j];
            let new = old | (self.words[8 * source + j] & set[j]);
            more |= new ^ old;
            self.words[8 * row + j] = new;
        }
        more != 0
    }

    // The atoms of a set are taken out of a source's row.
    fn take(&mut self, source: usize, set: &[u64])
        requires { (source < 16) × (length set.now ≡ 8) }
        ensures { TakenAway (on set.now 0) source self.old.words self.new.words }
    {
        for j in 0..8 {
            self.words[8 * source + j] &= !set[j];
        }
    }

    // Link l carries its atoms on, if it leads to a node. Returns the links that leave the node, where it got more, and else none.
    fn spread_along(&mut self, hall: &Hall, leaving: &[u64; 16], l: usize) -> u64
        requires { Laid hall.now.plan × (l < hall.now.plan.links) × Leaving hall.now.plan.link hall.now.plan.links leaving.now }
        ensures { Along hall.now l self.old.words self.new.words result }
    {
        let word = hall.plan.link[l];
        let end = (word % 1024) as usize;
        if end < 16 && self.join(tables::source_of(word), end, on_link(&hall.label, l)) {
            leaving[end]
        } else {
            0
        }
    }

    // One round: each link of `from` carries its atoms on. Returns the links that leave the nodes whose rows grew.
    fn spread_once(&mut self, hall: &Hall, leaving: &[u64; 16], from: u64) -> u64
        requires { Laid hall.now.plan × Leaving hall.now.plan.link hall.now.plan.links leaving.now × SettledBut hall.now from self.old.words }
        ensures { Round hall.now self.old.words self.new.words result }
    {
        // The lowest link each time: an iterator over a set's links would be longer than this loop.
        let mut left = from;
        let mut next: u64 = 0;
        while left != 0 {
            let l = left.trailing_zeros() as usize;
            left &= !(1u64 << l);
            next |= self.spread_along(hall, leaving, l);
        }
        next
    }

    // The atoms that stand at each node at some time of their walks from node v. Among 16 nodes no walk comes to a new node after 15 moves,
    // so 15 rounds are enough.
    fn spread(&mut self, hall: &Hall, v: usize)
        requires { Laid hall.now.plan × (v < 16) × (self.old.words ≡ zeroes table_words) }
        ensures { Spread hall.now v self.new.words }
    {
        self.fill(v);
        let leaving = leaving_links(&hall.plan);
        let mut from = leaving[v];
        for _ in 0..15u8 {
            from = self.spread_once(hall, &leaving, from);
            if from == 0 {
                return;
            }
        }
    }

    // The atoms that leave by a port join the row of those that go out. (Here and in `stay`: one function that is given the test and the step
    // would be no plainer, for the two share a `for` and an `if`, and it would need the clauses of two closures.)
    fn outward(&mut self, hall: &Hall)
        requires { Laid hall.now.plan }
        ensures { Outward hall.now hall.now.plan.links self.old.words self.new.words }
    {
        let plan = &hall.plan;
        for (l, &word) in plan.link[..plan.links as usize].iter().enumerate() {
            if word % 1024 / 256 == 1 {
                self.join(tables::source_of(word), OUT_ROW, on_link(&hall.label, l));
            }
        }
    }

    // Each node's row keeps the atoms that no link takes on from there, to a node or out.
    fn stay(&mut self, hall: &Hall)
        requires { Laid hall.now.plan }
        ensures { Stayed hall.now hall.now.plan.links self.old.words self.new.words }
    {
        let plan = &hall.plan;
        for (l, &word) in plan.link[..plan.links as usize].iter().enumerate() {
            if word % 1024 < 512 {
                self.take(tables::source_of(word), on_link(&hall.label, l));
            }
        }
    }

    // The atoms of all nodes' rows join the row of those that are lost.
    fn gather(&mut self)
        ensures { Gathered 16 self.old.words self.new.words }
    {
        for v in 0..16 {
            self.join(v, LOST_ROW, &ALL);
        }
    }

    // Divides the atoms by what becomes of them from node v: those that go out in one row, those that are lost in another.
    pub fn divide(&mut self, hall: &Hall, v: usize)
        requires { Laid hall.now.plan × (v < 16) × (self.old.words ≡ zeroes table_words) }
        ensures { Divided hall.now v self.new.words }
    {
        self.spread(hall, v);
        self.outward(hall);
        self.stay(hall);
        self.gather();
    }
}
