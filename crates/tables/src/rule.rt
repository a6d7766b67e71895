// Rules: a rule's word and its parts, the tie check, and the winner among gathered rules.
ghost use Rattle.std.specs.Prelude.{◌≡◌, ◌==◌, Bool, true, ◌&&◌, List, ℕ, ◌+◌, ◌^◌, ◌<◌, ◌≤◌, length, get_or};
ghost use Rattle.std.specs.List.{list_any};
ghost use Rattle.meaning.specs.Search.{any_below};
ghost use Rattle.meaning.specs.Hall.{ipv4};
ghost use Rattle.meaning.specs.Rule.{rule_word, live, link_of, rank as rank_of, lower, upper, covers, overlap};
ghost use Rattle.meaning.specs.Winner.{better};
ghost use Rattle.tables.specs.Gathered.{best_in, number_of, IsRule, Gathering, Gathers, mask_of, Marks, standing, tying};

use meaning::{Hall, Rule};

// A rule's word has the prefix from bit 0, the link from bit 32, how many bits the length leaves free from bit 38, the priority from
// bit 44, and bit 60 set. The word 0 is that of a number that is not live.
const LINK: u64 = 1 << 32;

const FREE: u64 = 1 << 38;

const PRIORITY: u64 = 1 << 44;

const LIVE: u64 = 1 << 60;

// The word of a rule.
#[tactic(auto, unfolding(meaning::specs::Rule::rule_word))]
pub fn pack(r: Rule) -> u64
    requires { (r.link < 64) × (r.length ≤ ipv4) }
    ensures { result ≡ rule_word ipv4 r.link r.prefix r.length r.priority }
{
    let free = 32 - r.length as u64;
    let head = LIVE + r.priority as u64 * PRIORITY + free * FREE;
    head + r.link as u64 * LINK + r.prefix as u64
}

#[tactic(auto, unfolding(meaning::specs::Rule::link_of))]
pub fn link_of(w: u64) -> usize
    ensures { (result ≡ link_of ipv4 w) × (result < 64) }
{
    (w / LINK % 64) as usize
}

#[tactic(auto, unfolding(meaning::specs::Rule::rank))]
pub fn rank_of(w: u64) -> u64
    ensures { (result ≡ rank_of ipv4 w) × (result < 65536) }
{
    w / PRIORITY % 65536
}

#[tactic(auto, unfolding(meaning::specs::Rule::lower))]
pub fn lower_of(w: u64) -> u64
    ensures { (result ≡ lower ipv4 w) × (result < 2 ^ ipv4) }
{
    w % LINK
}

pub fn upper_of(w: u64) -> u64
    ensures { (result ≡ upper ipv4 w) × (result < 2 ^ 64) }
{
    w % LINK + (1 << (w / FREE % 64))
}

// Whether x is a live rule at node v.
pub fn stands_at(hall: &Hall, v: usize, x: u64) -> bool
    ensures { result ≡ standing ipv4 hall.now.plan.link v x }
{
    x != 0 && crate::link::source_of(hall.plan.link[link_of(x)]) == v
}

// Whether x and w cover an address both.
pub fn overlaps(x: u64, w: u64) -> bool
    ensures { result ≡ overlap ipv4 x w }
{
    lower_of(x) < upper_of(w) && lower_of(w) < upper_of(x)
}

// Whether x is a live rule at node v that overlaps with w and has the same rank.
fn ties_with(hall: &Hall, v: usize, w: u64, x: u64) -> bool
    ensures { result ≡ tying ipv4 hall.now.plan.link v w x }
{
    rank_of(x) == rank_of(w) && stands_at(hall, v, x) && overlaps(x, w)
}

// Whether some word has the rank of w. It has no way out before the last word, so that the compiler can take several at once.
fn has_rank(rule: &[u64; 256], w: u64) -> bool
    ensures { result ≡ list_any (λ x. rank_of ipv4 x == rank_of ipv4 w) rule.now }
{
    rule.iter()
        .fold(false, |has, x| has | (rank_of(*x) == rank_of(w)))
}

// Whether a live rule at node v overlaps with w and has the same rank. A number that is not live has the word 0, so rank 0.
pub fn ties(hall: &Hall, v: usize, w: u64) -> bool
    ensures { result ≡ any_below 256 (λ i. tying ipv4 hall.now.plan.link v w (get_or hall.now.rule i 0)) }
{
    has_rank(&hall.rule, w) && hall.rule.iter().any(|x| ties_with(hall, v, w, *x))
}

// The word whose bits are all b.
fn mask_of(b: bool) -> u64
    ensures { result ≡ mask_of b }
{
    if b { u64::MAX } else { 0 }
}

// The links whose source is node v, marked. No `map` of the array: tried, and updates took 18 % more instructions.
fn links_at(link: &[u16; 64], v: usize) -> [u64; 64]
    ensures { Marks link.now v result }
{
    let mut here = [0u64; 64];
    for (l, word) in link.iter().enumerate() {
        here[l] = mask_of(crate::link::source_of(*word) == v);
    }
    here
}

// Whether x is a live rule on a link that is marked: one test, and no branch for the words of rules that are not live.
fn stands_on(here: &[u64; 64], x: u64) -> bool
    ensures { (b : Bool) → get_or here.now (link_of ipv4 x) 0 ≡ mask_of b → result ≡ (live x && b) }
{
    x & here[link_of(x)] != 0
}

// Takes rule i in: writes its number behind the first count where it is live, on a link that is marked, and overlaps with w,
// and returns how many there are then.
fn take_in(
    here: &[u64; 64],
    rule: &[u64; 256],
    w: u64,
    i: usize,
    among: &mut [u16; 256],
    count: usize,
) -> usize
    requires { (i < 256) × (count ≤ i) }
    ensures { (result ≤ count + 1) × ((link : List ℕ) (v : ℕ) → Marks link v here.now → Gathering ipv4 link rule.now v w among.old count i → Gathering ipv4 link rule.now v w among.new result (i + 1)) }
{
    let x = rule[i];
    if stands_on(here, x) && overlaps(x, w) {
        among[count] = i as u16;
        return count + 1;
    }
    count
}

// Gathers in `among` the numbers of the live rules at node v that overlap with w. Four rules in a round: tried with one, by `enumerate`,
// and updates took 6 % more instructions.
pub fn gather<'a>(hall: &Hall, v: usize, w: u64, among: &'a mut [u16; 256]) -> &'a [u16]
    ensures { Gathers ipv4 hall.now.plan.link hall.now.rule v w result.now (length result.now) }
{
    let here = links_at(&hall.plan.link, v);
    let rule = &hall.rule;
    let mut count = 0;
    for round in 0..64 {
        let i = 4 * round;
        count = take_in(&here, rule, w, i, among, count);
        count = take_in(&here, rule, w, i + 1, among, count);
        count = take_in(&here, rule, w, i + 2, among, count);
        count = take_in(&here, rule, w, i + 3, among, count);
    }
    &among[..count]
}

// Of the best so far and rule i, the better for address a: i where it covers a and there is none yet, or one of lower rank.
fn better_of(rule: &[u64; 256], a: u64, best: Option<usize>, i: usize) -> Option<usize>
    requires { (i < 256) × IsRule best }
    ensures { (number_of result ≡ better (λ k. covers ipv4 (get_or rule.now k 0) a) (λ k. rank_of ipv4 (get_or rule.now k 0)) (number_of best) i) × IsRule result }
{
    let x = rule[i];
    if a < lower_of(x) || upper_of(x) <= a {
        return best;
    }
    let rank = rank_of(x);
    match best {
        None => Some(i),
        Some(b) if rank_of(rule[b]) < rank => Some(i),
        Some(_) => best,
    }
}

// The best for address a of the gathered rules.
pub fn best_among(rule: &[u64; 256], among: &[u16], a: u64) -> Option<usize>
    requires { (j : ℕ) → j < length among.now → get_or among.now j 0 < 256 }
    ensures { (number_of result ≡ best_in (λ k. covers ipv4 (get_or rule.now k 0) a) (λ k. rank_of ipv4 (get_or rule.now k 0)) among.now (length among.now)) × IsRule result }
{
    let mut best = None;
    for i in among {
        best = better_of(rule, a, best, *i as usize);
    }
    best
}
