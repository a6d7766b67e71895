// Records: what the bytes of a stream begin with.
ghost use Rattle.std.specs.Prelude.{◌≡◌};
ghost use Rattle.meaning.specs.Records.{read_of};
ghost use Rattle.meaning.specs.Answers.{said_read};

use meaning::{Read, Record, Refusal};

// What s begins with: nothing, a record and its length, a body that is cut off, or a kind that is unknown. Of a number in several bytes the
// highest stands first: r1 and r0 are those of a rule's number, p3 to p0 of a prefix, t1 and t0 of a priority, a3 to a0 of an address.
#[tactic(auto, using(crate::proofs::CutOff::cut_off))]
pub fn read_record(s: &[u8]) -> Read
    ensures { said_read result ≡ said_read (read_of s.now) }
{
    let Some((kind, body)) = s.split_first() else {
        return Ok(None);
    };
    let got = match (*kind, body) {
        (1, [nodes, ..]) => (Record::Hall(*nodes), 2),
        (2, [source, code, end, ..]) => (Record::Link(*source, *code, *end), 4),
        (3, _) => (Record::Close, 1),
        (4, [r1, r0, link, p3, p2, p1, p0, length, t1, t0, ..]) => {
            let rule = u16::from_be_bytes([*r1, *r0]);
            let prefix = u32::from_be_bytes([*p3, *p2, *p1, *p0]);
            let priority = u16::from_be_bytes([*t1, *t0]);
            (Record::Insert(rule, *link, prefix, *length, priority), 11)
        }
        (5, [r1, r0, ..]) => (Record::Remove(u16::from_be_bytes([*r1, *r0])), 3),
        (6, _) => (Record::Loop, 1),
        (7, [node, a3, a2, a1, a0, ..]) => {
            let address = u32::from_be_bytes([*a3, *a2, *a1, *a0]);
            (Record::Fate(*node, address), 6)
        }
        (8, [from, to, ..]) => (Record::Reach(*from, *to), 3),
        (9, [node, ..]) => (Record::Tally(*node), 2),
        (1..=9, _) => return Err(Refusal::CutOff),
        (0 | 10..=255, _) => return Err(Refusal::UnknownKind),
    };
    Ok(Some(got))
}
