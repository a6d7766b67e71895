// One record from the front of the caller's bytes: the checks of document 01 in their order, then what the record does or asks.
ghost use Rattle.std.specs.Prelude.{◌≡◌, List, ℕ, ◌≤◌, length};
ghost use Rattle.meaning.specs.Records.{hall, link, close, sort_of, phase_of, got};
ghost use Rattle.meaning.specs.Step.{list_room};
ghost use Rattle.meaning.specs.Box.{state_of, HeldBy, left_in, left_for, left_of};
ghost use Rattle.meaning.specs.declared.Answer.TheVariants.{Refused};
ghost use Rattle.hall.specs.Plans.{SetsUp, told};

use meaning::{Answer, Hall, Phase, Plan, Record, Refusal, Rule, Step};

// The phase that a record belongs in.
fn phase_of(what: Record) -> Phase
    ensures { result ≡ phase_of (sort_of what) }
{
    match what {
        Record::Hall(_) => Phase::Bare,
        Record::Link(_, _, _) | Record::Close => Phase::Open,
        _ => Phase::Closed,
    }
}

// A step that refuses and changes nothing.
fn refused(passed: usize, why: Refusal) -> Step
    ensures { result ≡ record { answer = Refused why; passed = passed } }
{
    Step {
        answer: Answer::Refused(why),
        passed,
    }
}

// ---- the hall, its links and the close

// A hall record.
fn open(plan: &mut Plan, nodes: u8) -> Result<(), Refusal>
    ensures { SetsUp plan.old plan.new (hall nodes) result }
{
    if nodes == 0 || 16 < nodes {
        return Err(Refusal::NoNode);
    }
    plan.phase = Phase::Open;
    plan.nodes = nodes;
    Ok(())
}

// A link record.
fn add_link(plan: &mut Plan, source: u8, code: u8, number: u8) -> Result<(), Refusal>
    requires { (plan.old.nodes ≤ 16) × (length plan.old.link ≡ 64) }
    ensures { SetsUp plan.old plan.new (link source code number) result }
{
    let end = crate::link::check(plan, source, code, number)?;
    plan.link[plan.links as usize] = crate::link::pack(source, end);
    plan.links += 1;
    Ok(())
}

// A close record.
fn shut(plan: &mut Plan) -> Result<(), Refusal>
    ensures { SetsUp plan.old plan.new close result }
{
    plan.phase = Phase::Closed;
    Ok(())
}

// What a set-up record is answered with.
fn told(outcome: Result<(), Refusal>) -> Answer
    ensures { result ≡ told outcome }
{
    match outcome {
        Ok(()) => Answer::Ok,
        Err(why) => Answer::Refused(why),
    }
}

// ---- one record

// What a record in its order does or asks.
fn take(hall: &mut Hall, list: &mut [u64], passed: usize, what: Record) -> Step
    requires held { HeldBy hall.old }
    requires order { hall.old.plan.phase ≡ phase_of (sort_of what) }
    requires room { list_room ≤ length list.old }
    ensures { left_in result.answer result.passed hall.new list.new ≡ left_for (state_of hall.old) list.old (got what passed) }
{
    let answer = match what {
        Record::Hall(nodes) => told(open(&mut hall.plan, nodes)),
        Record::Link(source, code, number) => told(add_link(&mut hall.plan, source, code, number)),
        Record::Close => told(shut(&mut hall.plan)),
        Record::Insert(number, link, prefix, length, priority) => {
            let rule = Rule {
                link,
                prefix,
                length,
                priority,
            };
            return tables::take_insert(hall, list, passed, number, rule);
        }
        Record::Remove(number) => return tables::take_remove(hall, list, passed, number),
        _ => questions::reply(hall, what),
    };
    Step { answer, passed }
}

// The next record of the bytes: what it answers, how many bytes it goes past, and what it leaves in the hall and in the lent list.
pub fn take_record(bytes: &[u8], hall: &mut Hall, list: &mut [u64]) -> Step
    requires { HeldBy hall.old }
    ensures { left_in result.answer result.passed hall.new list.new ≡ left_of (state_of hall.old) list.old bytes.now }
{
    if list.len() < meaning::LIST_ROOM {
        return refused(0, Refusal::ShortList);
    }
    match records::read_record(bytes) {
        Ok(None) => Step {
            answer: Answer::End,
            passed: 0,
        },
        Err(why) => refused(0, why),
        Ok(Some((what, passed))) => {
            if hall.plan.phase != phase_of(what) {
                return refused(passed, Refusal::OutOfOrder);
            }
            take(hall, list, passed, what)
        }
    }
}
