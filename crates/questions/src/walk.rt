// The walk of a packet to one atom: at a node it takes the owner's link, and at the link's end it stands at the node, or has ended.
ghost use Rattle.std.specs.Prelude.{◌≡◌, ◌+◌, ◌-◌, ◌<◌};
ghost use Rattle.meaning.specs.Walk.{at, move, arrive, told, fate_in, comes_to};
ghost use Rattle.lent.specs.Owners.{owner_in, next_in, end_in};
ghost use Rattle.lent.specs.Nodes.{Off};
ghost use Rattle.questions.specs.Moves.{Stands, IsNext, IsLed, IsFirstOn, IsSeen, ComesBy};

use crate::lead::Nodes;
use meaning::{Fate, Hall};
use tables::Atom;

// The link that a packet to an atom takes at node v; None where the atom has no owner there.
fn next_link(hall: &Hall, atom: Atom, v: u8) -> Option<u8>
    requires { Stands hall.now atom.0 v }
    ensures { IsNext (owner_in hall.now.owner atom.0 v) result }
{
    let e = hall.owner[16 * atom.0 as usize + v as usize];
    if e == 0 {
        None
    } else {
        Some((e / 512 % 64) as u8)
    }
}

// No loop: `stand` and `travel` call each other, with moves left falling, as docs/TRACE.md says.
// The packet stands at node v after some hops, with `left` moves more until it is round.
#[cycle(stand_travel)]
fn stand(hall: &Hall, atom: Atom, v: u8, hops: u8, left: u8) -> Fate
    requires { Stands hall.now atom.0 v × (hops + left < 256) }
    ensures { result ≡ fate_in (next_in hall.now.owner atom.0) (end_in hall.now.plan.link) left hops v }
{
    if left == 0 {
        return Fate::Round;
    }
    let Some(l) = next_link(hall, atom, v) else {
        return Fate::Lost(v, hops);
    };
    travel(hall, atom, v, l, hops, left)
}

// The packet travels on link l from node v.
#[cycle(stand_travel)]
fn travel(hall: &Hall, atom: Atom, v: u8, l: u8, hops: u8, left: u8) -> Fate
    requires { Stands hall.now atom.0 v × (l < 64) × (0 < left) × (hops + left < 256) }
    ensures { result ≡ told (fate_in (next_in hall.now.owner atom.0) (end_in hall.now.plan.link) (left - 1) (hops + 1)) hops (arrive v l (end_in hall.now.plan.link l)) }
{
    let e = hall.plan.link[l as usize] % 1024;
    if e < 256 {
        stand(hall, atom, e as u8, hops + 1, left - 1)
    } else if e < 512 {
        Fate::Out(l, hops)
    } else {
        Fate::Lost(v, hops)
    }
}

// What becomes of a packet to an atom that stands at node v of a hall.
pub fn follow(hall: &Hall, atom: Atom, v: u8) -> Fate
    requires { Stands hall.now atom.0 v }
    ensures { result ≡ fate_in (next_in hall.now.owner atom.0) (end_in hall.now.plan.link) hall.now.plan.nodes 0 v }
{
    stand(hall, atom, v, 0, hall.plan.nodes)
}

// The node to which one move from node v leads; None where it leads to an end.
fn move_from(hall: &Hall, atom: Atom, v: u8) -> Option<u8>
    requires { Stands hall.now atom.0 v }
    ensures { IsLed result (move (next_in hall.now.owner atom.0) (end_in hall.now.plan.link) (at v)) }
{
    let l = next_link(hall, atom, v)?;
    u8::try_from(hall.plan.link[l as usize] % 1024).ok()
}

// The lowest of n nodes that is none of `off`.
pub fn first_on(off: Nodes, n: u8) -> Option<u8>
    ensures { IsFirstOn off n result }
{
    let v = off.trailing_ones() as u8;
    (v < n).then_some(v)
}

// Looks whether node v lies on a circle of an atom: None where it does, and else the nodes that are seen to lie on none. Where its walk
// ends, or comes to a node of `off`, the nodes passed lie on none and join `off`: so no node is walked from again that is seen to end.
// Where it goes round elsewhere, v alone joins.
pub fn look(hall: &Hall, atom: Atom, v: u8, off: Nodes) -> Option<Nodes>
    requires { Stands hall.now atom.0 v × Off (next_in hall.now.owner atom.0) (end_in hall.now.plan.link) hall.now.plan.nodes off }
    ensures { IsSeen (next_in hall.now.owner atom.0) (end_in hall.now.plan.link) hall.now.plan.nodes v off result }
{
    let mut here = v;
    let mut passed = off;
    for _ in 0..hall.plan.nodes {
        passed |= 1 << here;
        let Some(w) = move_from(hall, atom, here) else {
            return Some(passed);
        };
        if w == v {
            return None;
        }
        if (off >> w) % 2 == 1 {
            return Some(passed);
        }
        here = w;
    }
    Some(off | 1 << v)
}

// Whether the walk to an atom from node v stands at node w at some time, the start counted. Where the walk comes to a node that is none
// of `to`, it comes to w no more.
pub fn comes_to(hall: &Hall, atom: Atom, v: u8, w: u8, to: Nodes) -> bool
    requires { Stands hall.now atom.0 v × ComesBy (next_in hall.now.owner atom.0) (end_in hall.now.plan.link) w to }
    ensures { result ≡ comes_to (next_in hall.now.owner atom.0) (end_in hall.now.plan.link) hall.now.plan.nodes v w }
{
    let mut here = v;
    for _ in 0..hall.plan.nodes {
        if here == w {
            return true;
        }
        if (to >> here) % 2 == 0 {
            return false;
        }
        let Some(u) = move_from(hall, atom, here) else {
            return false;
        };
        here = u;
    }
    false
}
