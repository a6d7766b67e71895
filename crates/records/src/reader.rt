// A reader: it holds the caller's stream and its place. It is thin: the work is done on a slice and a number.
ghost use Rattle.std.specs.Prelude.{◌≡◌, drop};
ghost use Rattle.meaning.specs.Records.{read_of, placed_at};
ghost use Rattle.meaning.specs.Answers.{said_read, said_placed};
ghost use Rattle.records.specs.Readers.{next, next_of};

use crate::record::read_record;
use meaning::{Placed, Read};

// The caller's stream and a place in it.
#[derive(Clone, Copy)]
pub struct Reader<'a> {
    pub bytes: &'a [u8],
    pub at: usize,
}

// What the rest of a stream from a place on begins with. Past the end there is no byte left.
pub fn read_at(bytes: &[u8], at: usize) -> Read
    ensures { said_read result ≡ said_read (read_of (drop at bytes.now)) }
{
    match bytes.get(at..) {
        Some(rest) => read_record(rest),
        None => Ok(None),
    }
}

// What is read at a place, and the place after it: behind a record; at the end and at a refusal the place stays.
fn take_at(bytes: &[u8], at: usize) -> Placed
    ensures { result ≡ placed_at bytes.now at }
{
    let read = read_at(bytes, at);
    let passed = match read {
        Ok(Some((_, n))) => n,
        Ok(None) => 0,
        Err(_) => 0,
    };
    Placed {
        read,
        place: at + passed,
    }
}

// A reader over a stream, at a place of it.
pub fn reader_over<'a>(bytes: &'a [u8], at: usize) -> Reader<'a>
    ensures { result ≡ record { bytes = bytes.entry; at = at } }
{
    Reader { bytes, at }
}

// Reads the next record, and moves the reader's place behind it; at the end and at a refusal the place stays.
pub fn next_record<'s, 'a>(r: &'s mut Reader<'a>) -> Read
    ensures { next result r.new ≡ next_of r.old }
{
    let taken = take_at(r.bytes, r.at);
    r.at = taken.place;
    taken.read
}

// What a reader over a stream reads next at a place, and the place that it then has: for callers that hold no reader.
pub fn read_through(bytes: &[u8], at: usize) -> Placed
    ensures { said_placed result ≡ said_placed (placed_at bytes.now at) }
{
    let mut reader = reader_over(bytes, at);
    let read = next_record(&mut reader);
    Placed {
        read,
        place: reader.at,
    }
}
