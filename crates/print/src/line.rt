// The lines that `hallcheck` prints.
ghost use Rattle.std.specs.Prelude.{◌≡◌, [], ◌∷◌, ◌++◌, ◌+◌, ◌*◌, ◌<◌, ◌≤◌, length, ltb};
ghost use Rattle.print.specs.Text.{Wrote, WroteIfRoom, decimal};
ghost use Rattle.print.specs.Lines.{line, refusal_line, change, link_text, values};
ghost use Rattle.meaning.specs.declared.Answer.TheVariants.{Went};

use crate::ROOM;
use crate::number::{put_byte, put_number, put_short, put_text};
use meaning::{Answer, Fate};

// Whether there is less room than a line asks for from the place on.
fn is_full(buf: &[u8], at: usize) -> bool
    ensures { result ≡ ltb (length buf.now) (at + 128) }
{
    if buf.len() < ROOM {
        return true;
    }
    buf.len() - ROOM < at
}

// A space, and a number.
fn put_field(buf: &mut [u8], at: usize, n: u64) -> usize
    requires { at + 21 ≤ length buf.old }
    ensures { Wrote 21 (32 ∷ decimal n) buf.old buf.new at result }
{
    let next = put_byte(buf, at, b' ');
    put_number(buf, next, n)
}

// A space, and a link or "none".
fn put_link(buf: &mut [u8], at: usize, link: u64) -> usize
    requires { at + 21 ≤ length buf.old }
    ensures { Wrote 21 (32 ∷ link_text link) buf.old buf.new at result }
{
    let next = put_byte(buf, at, b' ');
    if link == meaning::NO_LINK {
        return put_byte(buf, next, b'-');
    }
    put_short(buf, next, link)
}

// A line: a record's place, a text and numbers.
fn put_words(buf: &mut [u8], at: usize, place: u64, text: &[u8], numbers: &[u64]) -> usize
    requires { at + 21 + length text.now + length numbers.now * 21 ≤ length buf.old }
    ensures { Wrote (21 + length text.now + length numbers.now * 21) (decimal place ++ (text.now ++ values numbers.now)) buf.old buf.new at result }
{
    let start = put_number(buf, at, place);
    let mut next = put_text(buf, start, text);
    for n in numbers {
        next = put_field(buf, next, *n);
    }
    put_byte(buf, next, b'\n')
}

// The line of a packet's fate.
#[tactic(auto, unfolding(crate::specs::Lines::line, crate::specs::Lines::word, crate::specs::Lines::values, meaning::specs::Answers::said, meaning::specs::Answers::said_fate))]
fn put_fate(buf: &mut [u8], at: usize, place: u64, fate: Fate) -> usize
    requires { at + 128 ≤ length buf.old }
    ensures { Wrote 128 (line place (Went fate)) buf.old buf.new at result }
{
    match fate {
        Fate::Out(link, hops) => put_words(buf, at, place, b" out", &[link as u64, hops as u64]),
        Fate::Lost(node, hops) => put_words(buf, at, place, b" lost", &[node as u64, hops as u64]),
        Fate::Round => put_words(buf, at, place, b" round", &[]),
    }
}

// The line of a refusal.
#[tactic(auto, unfolding(crate::specs::Lines::refusal_line, crate::specs::Lines::word, crate::specs::Lines::values))]
fn write_refusal(buf: &mut [u8], at: usize, place: u64, number: u8) -> usize
    requires { at + 128 ≤ length buf.old }
    ensures { Wrote 128 (refusal_line place number) buf.old buf.new at result }
{
    put_words(buf, at, place, b" refused", &[number as u64])
}

// A record's line.
#[tactic(auto, unfolding(crate::specs::Lines::line, crate::specs::Lines::refusal_line, crate::specs::Lines::word, crate::specs::Lines::values, meaning::specs::Answers::said))]
fn write_line(buf: &mut [u8], at: usize, place: u64, answer: Answer) -> usize
    requires { at + 128 ≤ length buf.old }
    ensures { Wrote 128 (line place answer) buf.old buf.new at result }
{
    match answer {
        Answer::End => put_words(buf, at, place, b" end", &[]),
        Answer::Refused(why) => write_refusal(buf, at, place, u8::from(why)),
        Answer::Ok => put_words(buf, at, place, b" ok", &[]),
        Answer::Changed(n) => put_words(buf, at, place, b" ok", &[n as u64]),
        Answer::Loop(a, v) => put_words(buf, at, place, b" loop", &[a, v as u64]),
        Answer::NoLoop => put_words(buf, at, place, b" none", &[]),
        Answer::Went(fate) => put_fate(buf, at, place, fate),
        Answer::Yes(a) => put_words(buf, at, place, b" yes", &[a]),
        Answer::No => put_words(buf, at, place, b" no", &[]),
        Answer::Tally(a, b, c) => put_words(buf, at, place, b" tally", &[a, b, c]),
    }
}

// A record's line. Where there is too little room for one, nothing is written.
pub fn put_line(buf: &mut [u8], at: usize, place: u64, answer: Answer) -> usize
    ensures { WroteIfRoom 128 (line place answer) buf.old buf.new at result }
{
    if is_full(buf, at) {
        return at;
    }
    write_line(buf, at, place, answer)
}

// The line of a refusal by its number, whatever the number: `put_line` writes those that document 01 has. Where there is too little room for one,
// nothing is written.
pub fn put_refusal(buf: &mut [u8], at: usize, place: u64, number: u8) -> usize
    ensures { WroteIfRoom 128 (refusal_line place number) buf.old buf.new at result }
{
    if is_full(buf, at) {
        return at;
    }
    write_refusal(buf, at, place, number)
}

// The line of an entry of a change list.
fn write_change(
    buf: &mut [u8],
    at: usize,
    atom: u64,
    lower: u64,
    upper: u64,
    old: u64,
    new: u64,
) -> usize
    requires { at + 128 ≤ length buf.old }
    ensures { Wrote 128 (change atom lower upper old new) buf.old buf.new at result }
{
    let start = put_byte(buf, at, b'=');
    let first = put_field(buf, start, atom);
    let second = put_field(buf, first, lower);
    let third = put_field(buf, second, upper);
    let fourth = put_link(buf, third, old);
    let last = put_link(buf, fourth, new);
    put_byte(buf, last, b'\n')
}

// The line of an entry of a change list. Where there is too little room for one, nothing is written.
pub fn put_change(
    buf: &mut [u8],
    at: usize,
    atom: u64,
    lower: u64,
    upper: u64,
    old: u64,
    new: u64,
) -> usize
    ensures { WroteIfRoom 128 (change atom lower upper old new) buf.old buf.new at result }
{
    if is_full(buf, at) {
        return at;
    }
    write_change(buf, at, atom, lower, upper, old, new)
}
