// The questions: fate, loop, reach and tally, each over the atoms by rising address.
ghost use Rattle.std.specs.Prelude.{◌≡◌, ◌+◌, ◌^◌, ◌<◌, ◌≤◌};
ghost use Rattle.meaning.specs.Questions.{fate_of, is_out, is_lost, by_address};
ghost use Rattle.meaning.specs.declared.Fate.{Fate as Went};
ghost use Rattle.meaning.specs.Box.{state_of, HeldBy};
ghost use Rattle.meaning.specs.Step.{reply_to};
ghost use Rattle.meaning.specs.Answers.{said};
ghost use Rattle.meaning.specs.Records.{loop as ask_loop, reach as ask_reach, tally as ask_tally};
ghost use Rattle.meaning.specs.Hall.{ipv4};
ghost use Rattle.lent.specs.Owners.{WholeBy};
ghost use Rattle.questions.specs.Tallied.{Counted};

use crate::lead::Nodes;
use crate::stand::{LOST_ROW, OUT_ROW, Sets};
use meaning::{Answer, Fate, Hall, Phase, Record, Refusal};
use tables::{Place, atom_at};

// What becomes of a packet to address a from node v.
fn fate_from(hall: &Hall, v: u8, a: u32) -> Fate
    requires held { HeldBy hall.now }
    requires v_lt_nodes { v < hall.now.plan.nodes }
    ensures { result ≡ fate_of (state_of hall.now) v a }
{
    let atom = tables::atom_of(&hall.atoms, a);
    crate::walk::follow(hall, atom, v)
}

// How many places there are: at most 512, which the compiler is told here, so that it leaves the test of `atom_at` out of the loops.
// Those go over places, not over boundaries and numbers zipped: `atom_at` is the one way from a place to its atom.
fn places(hall: &Hall) -> usize
    requires { hall.now.atoms.count ≤ 512 }
    ensures { result ≡ hall.now.atoms.count }
{
    (hall.atoms.count as usize).min(512)
}

// The lowest address that goes round from some node, and the lowest node on one of its circles. Nodes that lie on no circle of leads are
// not looked at.
fn find_loop(hall: &Hall) -> Answer
    requires { WholeBy hall.now }
    ensures { result ≡ by_address (state_of hall.now) ask_loop }
{
    let nodes = hall.plan.nodes;
    let never = crate::lead::off_walks(hall);
    let mut answer = Answer::NoLoop;
    if never == Nodes::MAX {
        return answer;
    }
    'search: for p in 0..places(hall) {
        let atom = atom_at(&hall.atoms.number, Place(p));
        let mut off = never;
        while let Some(v) = crate::walk::first_on(off, nodes) {
            let Some(more) = crate::walk::look(hall, atom, v, off) else {
                answer = Answer::Loop(hall.atoms.cut[p], v);
                break 'search;
            };
            off = more;
        }
    }
    answer
}

// The lowest address whose walk from node v stands at node w. Where no leads go from v to w, no walk does.
fn find_reach(hall: &Hall, v: u8, w: u8) -> Answer
    requires whole { WholeBy hall.now }
    requires v_lt_nodes { v < hall.now.plan.nodes }
    ensures { result ≡ by_address (state_of hall.now) (ask_reach v w) }
{
    let to = crate::lead::toward_walks(hall, w);
    if (to >> v) % 2 == 0 {
        return Answer::No;
    }
    for p in 0..places(hall) {
        let atom = atom_at(&hall.atoms.number, Place(p));
        if crate::walk::comes_to(hall, atom, v, w, to) {
            return Answer::Yes(hall.atoms.cut[p]);
        }
    }
    Answer::No
}

// How many addresses are out, lost and round from some node.
#[derive(Clone, Copy, Default)]
struct Counts {
    out: u64,
    lost: u64,
    round: u64,
}

impl Counts {
    // A packet that goes out, is lost, or else goes round, for so many addresses more.
    fn count(&mut self, out: bool, lost: bool, width: u64)
        requires { (self.old.out + width ≤ 2 ^ ipv4) × (self.old.lost + width ≤ 2 ^ ipv4) × (self.old.round + width ≤ 2 ^ ipv4) }
        ensures { (f : Went) → is_out f ≡ out → is_lost f ≡ lost → Counted self.old f width self.new }
    {
        if out {
            self.out += width;
        } else if lost {
            self.lost += width;
        } else {
            self.round += width;
        }
    }
}

// How many addresses are out, lost and round from node v, each counted by its own fate.
fn count_fates(hall: &Hall, v: u8) -> Answer
    requires whole { WholeBy hall.now }
    requires v_lt_nodes { v < hall.now.plan.nodes }
    ensures { result ≡ by_address (state_of hall.now) (ask_tally v) }
{
    let mut sets = Sets::new();
    sets.divide(hall, v as usize);
    let mut counts = Counts::default();
    let cut = &hall.atoms.cut;
    for p in 0..places(hall) {
        let atom = atom_at(&hall.atoms.number, Place(p));
        let out = sets.has(OUT_ROW, atom);
        let lost = sets.has(LOST_ROW, atom);
        counts.count(out, lost, cut[p + 1] - cut[p]);
    }
    Answer::Tally(counts.out, counts.lost, counts.round)
}

// The answer to a question. A record that asks nothing is out of its order here.
pub fn reply(hall: &Hall, what: Record) -> Answer
    requires { HeldBy hall.now }
    ensures { said result ≡ said (reply_to (state_of hall.now) what) }
{
    if hall.plan.phase != Phase::Closed {
        return Answer::Refused(Refusal::OutOfOrder);
    }
    let nodes = hall.plan.nodes;
    match what {
        Record::Loop => find_loop(hall),
        Record::Fate(v, _) if nodes <= v => Answer::Refused(Refusal::NoNode),
        Record::Fate(v, a) => Answer::Went(fate_from(hall, v, a)),
        Record::Reach(v, w) if nodes <= v || nodes <= w => Answer::Refused(Refusal::NoNode),
        Record::Reach(v, w) => find_reach(hall, v, w),
        Record::Tally(v) if nodes <= v => Answer::Refused(Refusal::NoNode),
        Record::Tally(v) => count_fates(hall, v),
        _ => Answer::Refused(Refusal::OutOfOrder),
    }
}
