// Updates: the checks of an insert and a remove, and what an accepted one does to the tables.
ghost use Rattle.std.specs.Prelude.{◌≡◌, List, ◌++◌, ℕ, ◌+◌, ◌*◌, ◌%◌, ◌^◌, ◌≤◌, ◌<◌, length, get_or, take, drop, Result};
ghost use Rattle.std.proofs.Math.Option.{none};
ghost use Rattle.meaning.specs.Search.{pick};
ghost use Rattle.meaning.specs.Hall.{ipv4};
ghost use Rattle.meaning.specs.Atoms.{is_cut};
ghost use Rattle.meaning.specs.Changes.{entry_words};
ghost use Rattle.meaning.specs.Records.{insert, remove};
ghost use Rattle.meaning.specs.Step.{list_room, checked, ragged, update_refusal, updated, node_of};
ghost use Rattle.meaning.specs.Box.{state_of};
ghost use Rattle.meaning.specs.Tables.{Cuts};
ghost use Rattle.meaning.specs.declared.hall.Phase.TheVariants.{Closed};
ghost use Rattle.lent.specs.Owners.{via, WholeBy, ListedIn};
ghost use Rattle.tables.specs.Bits.{IsLink, link_number};
ghost use Rattle.tables.specs.Gathered.{number_of, IsRule};
ghost use Rattle.tables.specs.Sweep.{owner_by, owner_for, raised, heir_of, Ready, SweptBy};

use crate::atom::Place;
use meaning::{Atoms, Hall, Refusal, Rule};

// ---- the checks

// Whether a prefix has a one bit below its length.
#[tactic(auto, unfolding(meaning::specs::Step::ragged), using(meaning::proofs::base::Bits::shifted))]
fn is_ragged(prefix: u32, length: u8) -> bool
    requires { length ≤ ipv4 }
    ensures { result ≡ ragged ipv4 prefix length }
{
    u64::from(prefix) % (1 << (32 - length)) != 0
}

// One where b is no boundary, else none.
#[tactic(auto, unfolding(meaning::specs::Atoms::is_cut))]
fn adds(atoms: &Atoms, b: u64) -> usize
    requires { Cuts (2 ^ ipv4) atoms.now.cut atoms.now.count }
    ensures { (result ≡ pick (is_cut atoms.now.cut atoms.now.count b) 0 1) × (result ≤ 1) }
{
    let p = crate::atom::place_of(atoms, b).0;
    usize::from(atoms.cut[p] != b)
}

// The checks of an insert, in their order.
pub fn check_insert(hall: &Hall, r: u16, x: Rule) -> Result<(), Refusal>
    requires { WholeBy hall.now }
    ensures { checked result ≡ update_refusal (state_of hall.now) (insert r x.link x.prefix x.length x.priority) }
{
    if 255 < r {
        return Err(Refusal::NoRule);
    }
    if hall.rule[r as usize] != 0 {
        return Err(Refusal::RuleLive);
    }
    if hall.plan.links <= x.link {
        return Err(Refusal::NoLink);
    }
    if 32 < x.length || is_ragged(x.prefix, x.length) {
        return Err(Refusal::NoPrefix);
    }
    let w = crate::rule::pack(x);
    let v = crate::link::source_of(hall.plan.link[x.link as usize]);
    if crate::rule::ties(hall, v, w) {
        return Err(Refusal::Tie);
    }
    let atoms = &hall.atoms;
    let more = adds(atoms, crate::rule::lower_of(w)) + adds(atoms, crate::rule::upper_of(w));
    if 512 < atoms.count as usize + more {
        return Err(Refusal::CutsFull);
    }
    Ok(())
}

// The checks of a remove, in their order.
pub fn check_remove(hall: &Hall, r: u16) -> Result<(), Refusal>
    ensures { checked result ≡ update_refusal (state_of hall.now) (remove r) }
{
    if 255 < r {
        return Err(Refusal::NoRule);
    }
    if hall.rule[r as usize] == 0 {
        return Err(Refusal::RuleNotLive);
    }
    Ok(())
}

// ---- one change

// Rule r on a link, as an owner.
fn owner_of(link: usize, r: usize) -> u16
    requires { (link < 64) × (r < 256) }
    ensures { result ≡ link * 512 + (r + 1) }
{
    (link * 512 + r + 1) as u16
}

// The link that an owner names.
#[tactic(auto, unfolding(lent::specs::Owners::via))]
fn via_of(owner: u16) -> Option<usize>
    ensures { (link_number result ≡ via owner) × IsLink result }
{
    if owner == 0 {
        None
    } else {
        Some((owner / 512 % 64) as usize)
    }
}

// A link's number, as an entry of the list has it.
fn link_number(link: Option<usize>) -> u64
    requires { IsLink link }
    ensures { result ≡ link_number link }
{
    link.map_or(meaning::NO_LINK, |l| l as u64)
}

// Writes entry k of the list, word by word: by `copy_from_slice` an update takes 3 % more instructions.
fn write_entry(list: &mut [u64], k: usize, entry: [u64; 5])
    requires { (entry_words * k + entry_words ≤ length list.old) × (k < 512) }
    ensures { list.new ≡ take (entry_words * k) list.old ++ entry ++ drop (entry_words * k + entry_words) list.old }
{
    for (i, word) in entry.iter().enumerate() {
        list[5 * k + i] = *word;
    }
}

// Over the places from f to below t, node v's owner becomes what `next` makes of the place's lower end and of the owner there. Where that is another,
// the atom moves from link to link, and the list gets an entry. Returns how many there are.
// It is lent the hall's parts, and not the hall: `next` looks at the rules while labels and owners are written.
fn sweep<F: Fn(u64, u16) -> u16>(
    atoms: &Atoms,
    label: &mut [u64; 512],
    owner: &mut [u16; 8192],
    list: &mut [u64],
    v: usize,
    f: Place,
    t: Place,
    next: F,
) -> usize
    requires ready { Ready atoms.now.number owner.old list.old atoms.now.count v f.0 t.0 }
    requires callable { (q : ℕ) → f.0 ≤ q → q < t.0 → F.pre next (get_or atoms.now.cut q 0) (owner_by owner.old atoms.now.number v q) }
    ensures { SweptBy (λ q. F.post next (get_or atoms.now.cut q 0) (owner_by owner.old atoms.now.number v q))
        atoms.now.cut atoms.now.number atoms.now.count v f.0 t.0 (owner_by owner.old atoms.now.number v) label.old label.new owner.old owner.new list.old list.new result }
{
    let mut k = 0;
    for p in f.0..t.0.min(512) {
        let atom = crate::atom::atom_at(&atoms.number, Place(p));
        let i = atom.owner_index(v);
        let old = owner[i];
        let new = next(atoms.cut[p], old);
        if old != new {
            owner[i] = new;
            let from = via_of(old);
            let to = via_of(new);
            crate::label::move_atom(label, from, to, atom);
            write_entry(
                list,
                k,
                [
                    atom.0 as u64,
                    atoms.cut[p],
                    atoms.cut[p + 1],
                    link_number(from),
                    link_number(to),
                ],
            );
            k += 1;
        }
    }
    k
}

// ---- an insert

// Of an owner and the new rule, mine, the one of higher rank.
#[tactic(auto, unfolding(crate::specs::Sweep::raised))]
fn higher(rule: &[u64; 256], owner: u16, mine: u16, rank: u64) -> u16
    requires { (owner ≡ 0 → ⊥) → (0 < owner % 512) × (owner % 512 ≤ 256) }
    ensures { result ≡ raised ipv4 rule.now mine rank owner }
{
    if owner == 0 || crate::rule::rank_of(rule[owner as usize % 512 - 1]) < rank {
        mine
    } else {
        owner
    }
}

// Takes a rule in, once its checks have passed: its ends are made boundaries, and it takes its node over where it has the highest rank.
// Returns how many entries the list gets.
pub fn insert(hall: &mut Hall, list: &mut [u64], r: u16, x: Rule) -> u16
    requires whole { WholeBy hall.old }
    requires phase { hall.old.plan.phase ≡ Closed }
    requires passes { update_refusal (state_of hall.old) (insert r x.link x.prefix x.length x.priority) ≡ none }
    requires room { list_room ≤ length list.old }
    ensures state { state_of hall.new ≡ updated (state_of hall.old) (insert r x.link x.prefix x.length x.priority) }
    ensures listed { ListedIn hall.old hall.new (insert r x.link x.prefix x.length x.priority) list.old list.new result }
{
    let v = crate::link::source_of(hall.plan.link[x.link as usize]);
    let w = crate::rule::pack(x);
    let low = crate::rule::lower_of(w);
    let high = crate::rule::upper_of(w);
    crate::atom::make_boundary(hall, low);
    crate::atom::make_boundary(hall, high);
    let f = crate::atom::place_of(&hall.atoms, low);
    let t = crate::atom::place_of(&hall.atoms, high);
    let mine = owner_of(x.link as usize, r as usize);
    let rank = crate::rule::rank_of(w);
    let rule = &hall.rule;
    let listed = sweep(
        &hall.atoms,
        &mut hall.label,
        &mut hall.owner,
        list,
        v,
        f,
        t,
        |_, owner| { higher(rule, owner, mine, rank) },
    );
    hall.rule[r as usize] = w;
    listed as u16
}

// ---- a remove

// A rule as an owner; the table of owners has 0 for none.
#[tactic(auto, unfolding(crate::specs::Sweep::owner_for))]
fn owner_for(rule: &[u64; 256], winner: Option<usize>) -> u16
    requires { IsRule winner }
    ensures { result ≡ owner_for ipv4 rule.now (number_of winner) }
{
    match winner {
        Some(w) => owner_of(crate::rule::link_of(rule[w]), w),
        None => 0,
    }
}

// An owner, or where it is the rule that has gone the best for address a of the gathered ones.
#[tactic(auto, unfolding(crate::specs::Sweep::heir_of))]
fn heir(rule: &[u64; 256], among: &[u16], gone: u16, a: u64, owner: u16) -> u16
    requires { (j : ℕ) → j < length among.now → get_or among.now j 0 < 256 }
    ensures { result ≡ heir_of ipv4 rule.now among.now (length among.now) gone a owner }
{
    if owner != gone {
        return owner;
    }
    owner_for(rule, crate::rule::best_among(rule, among, a))
}

// Takes rule r out, once its checks have passed: where it won, the highest rank left wins. Returns how many entries the list gets.
pub fn remove(hall: &mut Hall, list: &mut [u64], r: u16) -> u16
    requires whole { WholeBy hall.old }
    requires phase { hall.old.plan.phase ≡ Closed }
    requires passes { update_refusal (state_of hall.old) (remove r) ≡ none }
    requires room { list_room ≤ length list.old }
    ensures state { state_of hall.new ≡ updated (state_of hall.old) (remove r) }
    ensures listed { ListedIn hall.old hall.new (remove r) list.old list.new result }
{
    let w = hall.rule[r as usize];
    let l = crate::rule::link_of(w);
    let v = crate::link::source_of(hall.plan.link[l]);
    let f = crate::atom::place_of(&hall.atoms, crate::rule::lower_of(w));
    let t = crate::atom::place_of(&hall.atoms, crate::rule::upper_of(w));
    hall.rule[r as usize] = 0;
    let mut among = [0u16; 256];
    let gathered = crate::rule::gather(hall, v, w, &mut among);
    let gone = owner_of(l, r as usize);
    let rule = &hall.rule;
    let listed = sweep(
        &hall.atoms,
        &mut hall.label,
        &mut hall.owner,
        list,
        v,
        f,
        t,
        |a, owner| { heir(rule, gathered, gone, a, owner) },
    );
    listed as u16
}
