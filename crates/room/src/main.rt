// The room that is lent for the change list, both sides: with 2,559 words every record and the empty stream are refused by 0, with 2,560 none is.
// First it prints the number of the refusal at which a run over the empty stream stops, or 14 for "end", then that of an insert cut off. For each
// kind from 0 to 10, in a stream of 11 bytes, it prints the kind and that number: an insert has 11 bytes, so that its run comes to the end;
// behind the others stands a kind 0.
#![tactic(auto)]

use meaning::{Answer, LIST_ROOM};
use std::io;

// A refusal by its number, "end" by 14, anything else by 15.
fn number_of(answer: Answer) -> u8 {
    match answer {
        Answer::Refused(why) => u8::from(why),
        Answer::End => 14,
        _ => 15,
    }
}

// Runs over a stream with this list, and returns the answer at which the run stops, by its number.
fn stop_of(stream: &[u8], list: &mut [u64]) -> u8 {
    let mut hall = stream::new_box();
    let ran = stream::run_stream(stream, &mut hall, list);
    number_of(ran.stopped)
}

// Prints where the runs with this list stop: over nothing, over an insert cut off, and over each kind, known and unknown, with zeros behind it.
fn say_stops(rt: &impl Print, list: &mut [u64]) -> io::Result<()> {
    println!(rt; "{}", stop_of(&[], list))?;
    println!(rt; "{}", stop_of(&[4], list))?;
    for kind in 0..=10u8 {
        let mut stream = [0; 11];
        stream[0] = kind;
        println!(rt; "{kind} {}", stop_of(&stream, list))?;
    }
    Ok(())
}

fn main(rt: HostRuntime) -> io::Result<()> {
    let mut short = [7u64; LIST_ROOM - 1];
    say_stops(&rt, &mut short)?;
    let mut full = [7u64; LIST_ROOM];
    say_stops(&rt, &mut full)?;
    println!(rt; "{} {}", short[0], full[LIST_ROOM - 1])
}
