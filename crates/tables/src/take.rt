// An insert or a remove that has been read: the checks in their order, then what it does to the hall and to the lent list.
ghost use Rattle.std.specs.Prelude.{◌≡◌, List, ℕ, ◌≤◌, ltb, eqb, not, Result, length};
ghost use Rattle.std.proofs.Math.Option.{none};
ghost use Rattle.meaning.specs.Hall.{stage};
ghost use Rattle.meaning.specs.Box.{state_of, HeldBy, left_in, left_for};
ghost use Rattle.meaning.specs.Records.{got};
ghost use Rattle.meaning.specs.Step.{list_room, when, checked};
ghost use Rattle.meaning.specs.declared.Refusal.TheVariants.{ShortList, OutOfOrder};
ghost use Rattle.meaning.specs.declared.hall.Phase.TheVariants.{Closed};
ghost use Rattle.meaning.specs.declared.Record.TheVariants.{Insert as insertion, Remove as removal};
ghost use Rattle.tables.specs.Outcome.{told, passed_of, unready};

use meaning::{Answer, Hall, Phase, Refusal, Rule, Step};

// What refuses any update: a list that is too short, and a hall that is not closed.
fn ready(hall: &Hall, list: &[u64]) -> Result<(), Refusal>
    ensures { checked result ≡ unready hall.now.plan.phase list.now }
{
    if list.len() < meaning::LIST_ROOM {
        return Err(Refusal::ShortList);
    }
    if hall.plan.phase != Phase::Closed {
        return Err(Refusal::OutOfOrder);
    }
    Ok(())
}

// The step of an update whose record has `passed` bytes: it has done what it lists, or was refused. Where the list is too short no byte is passed.
fn step(passed: usize, outcome: Result<u16, Refusal>) -> Step
    ensures { result ≡ record { answer = told outcome; passed = passed_of passed outcome } }
{
    match outcome {
        Ok(listed) => Step {
            answer: Answer::Changed(listed),
            passed,
        },
        Err(why) => Step {
            answer: Answer::Refused(why),
            passed: if why == Refusal::ShortList { 0 } else { passed },
        },
    }
}

// An insert that is refused, or done with so many entries listed.
fn insert(hall: &mut Hall, list: &mut [u64], r: u16, x: Rule) -> Result<u16, Refusal>
    requires { HeldBy hall.old }
    ensures { (n : ℕ) → left_in (told result) (passed_of n result) hall.new list.new
        ≡ left_for (state_of hall.old) list.old (got (insertion r x.link x.prefix x.length x.priority) n) }
{
    ready(hall, list)?;
    crate::update::check_insert(hall, r, x)?;
    let listed = crate::update::insert(hall, list, r, x);
    crate::label::known(&hall.label);
    Ok(listed)
}

// A remove that is refused, or done with so many entries listed.
fn remove(hall: &mut Hall, list: &mut [u64], r: u16) -> Result<u16, Refusal>
    requires { HeldBy hall.old }
    ensures { (n : ℕ) → left_in (told result) (passed_of n result) hall.new list.new ≡ left_for (state_of hall.old) list.old (got (removal r) n) }
{
    ready(hall, list)?;
    crate::update::check_remove(hall, r)?;
    let listed = crate::update::remove(hall, list, r);
    crate::label::known(&hall.label);
    Ok(listed)
}

// An insert record of `passed` bytes that has been read: it is refused by its check, or done.
pub fn take_insert(hall: &mut Hall, list: &mut [u64], passed: usize, r: u16, x: Rule) -> Step
    requires { HeldBy hall.old }
    ensures { left_in result.answer result.passed hall.new list.new
        ≡ left_for (state_of hall.old) list.old (got (insertion r x.link x.prefix x.length x.priority) passed) }
{
    step(passed, insert(hall, list, r, x))
}

// A remove record of `passed` bytes that has been read: it is refused by its check, or done.
pub fn take_remove(hall: &mut Hall, list: &mut [u64], passed: usize, r: u16) -> Step
    requires { HeldBy hall.old }
    ensures { left_in result.answer result.passed hall.new list.new ≡ left_for (state_of hall.old) list.old (got (removal r) passed) }
{
    step(passed, remove(hall, list, r))
}
