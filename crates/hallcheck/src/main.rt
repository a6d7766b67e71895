// hallcheck: reads a stream of records from standard input, at most 65,536 bytes, and prints a line for each record.
// No contract can say what is read or printed; what each line holds is the contract of the crate `print`.
// An error of reading or writing ends the program: `main` returns it.
#![tactic(auto)]

ghost use Rattle.std.specs.Prelude.{◌≡◌, ◌↔◌, ◌+◌, ◌*◌, ◌≤◌, ◌<◌, ◌∷◌, [], ℕ, List, length, take, IsTrue, IsFalse, IfOk, OnErr};
ghost use Rattle.std.specs.Io.{ReadsAtMost};
ghost use Rattle.std.specs.Io.KnownBytes.{Keeps, Consumes, IsAtEnd};
ghost use Rattle.meaning.specs.Changes.{entry_words};
ghost use Rattle.meaning.specs.Step.{list_room};
ghost use Rattle.meaning.specs.Box.{HeldBy};
ghost use Rattle.hallcheck.specs.Entries.{HasEntries, entries_of};

use meaning::{Answer, Hall};
use std::io;
use std::io::Read;
use std::marker::Model;

// Reads until the buffer is full or the input ends, and gives how many bytes it put at the buffer's start.
fn read_full<R: Read>(input: &mut R, buf: &mut [u8]) -> io::Result<usize>
    ensures bound { ReadsAtMost result buf.new }
    ensures ok { IfOk result (λ n. Consumes (R.remaining input.old) (R.remaining input.new) (take n buf.new)) }
    ensures end { IfOk result (λ n. n < length buf.new → IsAtEnd (R.remaining input.new)) }
    ensures err { OnErr result ((n : ℕ) × Consumes (R.remaining input.old) (R.remaining input.new) (take n buf.new)) }
{
    let mut done = 0;
    while done < buf.len() {
        let n = input.read(&mut buf[done..])?;
        if n == 0 {
            return Ok(done);
        }
        done += n;
    }
    Ok(done)
}

// Whether the input has a byte more.
fn is_more<R: Read>(input: &mut R) -> io::Result<bool>
    ensures more { IfOk result (λ more. IsTrue more → (b : ℕ) × Consumes (R.remaining input.old) (R.remaining input.new) (b ∷ [])) }
    ensures end { IfOk result (λ more. IsFalse more → Keeps (R.remaining input.old) (R.remaining input.new) × IsAtEnd (R.remaining input.new)) }
{
    let mut one = [0u8; 1];
    Ok(read_full(input, &mut one)? > 0)
}

// How many entries of the change list an answer counts.
#[tactic(auto, unfolding(crate::specs::Entries::entries_of))]
fn entries_of(answer: Answer) -> usize
    ensures { result ≡ entries_of answer }
{
    match answer {
        Answer::Changed(count) => count as usize,
        _ => 0,
    }
}

// Lines that are still to be written out.
#[derive(Drop)]
struct Out {
    bytes: [u8; 65536],
    length: usize,
}

impl Model for Out {
    ghost Value = { List ℕ };

    ghost view = { λ o. take o.length o.bytes };

    ghost invariant = { λ o. o.length ≤ 65536 };
}

impl Out {
    // Writes out all lines. After an error none is left either.
    fn write_out(&mut self, rt: &impl Print) -> io::Result<()>
        ensures { self.new ≡ [] }
    {
        let length = self.length;
        self.length = 0;
        rt.write_all(&self.bytes[..length])
    }

    // Whether there is too little room for a line.
    fn is_full(&self) -> bool
        ensures { IsTrue result ↔ (65536 < length self.now + 128) }
    {
        self.bytes.len() - self.length < print::ROOM
    }

    // Makes room for a line: where there is too little, all lines are written out.
    fn make_room(&mut self, rt: &impl Print) -> io::Result<()>
        ensures { IfOk result (λ done. length self.new + 128 ≤ 65536) }
    {
        if self.is_full() {
            self.write_out(rt)?;
        }
        Ok(())
    }

    // A line for each entry of the change list, of five words each.
    fn print_changes(&mut self, rt: &impl Print, list: &[u64]) -> io::Result<()> {
        for entry in list.chunks_exact(5) {
            prove!(entry.len() == 5);
            self.make_room(rt)?;
            self.length = print::put_change(
                &mut self.bytes,
                self.length,
                entry[0],
                entry[1],
                entry[2],
                entry[3],
                entry[4],
            );
        }
        Ok(())
    }

    // A record's line, and the entries of its change list. "End" prints nothing.
    fn print_answer(
        &mut self,
        rt: &impl Print,
        place: u64,
        answer: Answer,
        list: &[u64],
    ) -> io::Result<()>
        requires { HasEntries answer list.now }
    {
        if matches!(answer, Answer::End) {
            return Ok(());
        }
        self.make_room(rt)?;
        self.length = print::put_line(&mut self.bytes, self.length, place, answer);
        self.print_changes(rt, &list[..entries_of(answer) * 5])
    }
}

// The lines of all records of the bytes, from a fresh hall on.
fn print_all(
    rt: &impl Print,
    bytes: &[u8],
    hall: &mut Hall,
    list: &mut [u64],
    out: &mut Out,
) -> io::Result<()>
    requires held { HeldBy hall.old }
    requires list_room_in_bounds { list_room ≤ length list.old }
{
    let mut at = 0;
    let mut place = 0;
    loop {
        let step = hall::take_record(&bytes[at..], hall, list);
        out.print_answer(rt, place, step.answer, list)?;
        if step.passed == 0 {
            return out.write_out(rt);
        }
        at += step.passed;
        place += 1;
    }
}

// Lends a fresh hall, the change list and the output buffer.
fn check(rt: &impl Print, bytes: &[u8]) -> io::Result<()> {
    let mut hall = stream::new_box();
    let mut list = [0u64; meaning::LIST_ROOM];
    let mut out = Out {
        bytes: [0; 65536],
        length: 0,
    };
    print_all(rt, bytes, &mut hall, &mut list, &mut out)
}

fn main(rt: HostRuntime) -> io::Result<()> {
    let mut stdin = rt.stdin();
    let mut input = [0u8; 65536];
    let n = read_full(&mut stdin, &mut input)?;
    if n == 65536 && is_more(&mut stdin)? {
        return rt.write_all(b"long\n");
    }
    check(&rt, &input[..n])
}
