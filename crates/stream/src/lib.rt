// A fresh hall, and a run over a whole stream.
#![tactic(auto)]

ghost use Rattle.std.specs.Prelude.{◌≡◌, length};
ghost use Rattle.meaning.specs.Hall.{fresh};
ghost use Rattle.meaning.specs.Labels.{labels_of};
ghost use Rattle.meaning.specs.Working.{owners_of};
ghost use Rattle.meaning.specs.Box.{state_of, left_in, ran_of};

use meaning::{Answer, Atoms, Hall, Phase, Plan, Ran};

// The end of the address range: the upper end of the last atom.
const TOP: u64 = 1 << 32;

// A fresh hall.
pub fn new_box() -> Hall
    ensures state { state_of result ≡ fresh }
    ensures labels { result.label ≡ labels_of fresh }
    ensures owners { result.owner ≡ owners_of fresh }
{
    let mut hall = Hall {
        plan: Plan {
            phase: Phase::Bare,
            nodes: 0,
            links: 0,
            link: [0; 64],
        },
        rule: [0; 256],
        atoms: Atoms {
            count: 1,
            cut: [0; 513],
            number: [0; 512],
        },
        label: [0; 512],
        owner: [0; 8192],
    };
    hall.atoms.cut[1] = TOP;
    hall
}

// Makes the lent hall a fresh one, whatever it held.
pub fn clear_box(hall: &mut Hall)
    ensures state { state_of hall.new ≡ fresh }
    ensures labels { hall.new.label ≡ labels_of fresh }
    ensures owners { hall.new.owner ≡ owners_of fresh }
{
    hall.plan.phase = Phase::Bare;
    hall.plan.nodes = 0;
    hall.plan.links = 0;
    hall.plan.link.fill(0);
    hall.rule.fill(0);
    hall.atoms.count = 1;
    hall.atoms.cut.fill(0);
    hall.atoms.cut[1] = TOP;
    hall.atoms.number.fill(0);
    hall.label.fill(0);
    hall.owner.fill(0);
}

// Runs over a whole stream from a fresh hall, until the end or a record that is not gone past.
pub fn run_stream(bytes: &[u8], hall: &mut Hall, list: &mut [u64]) -> Ran
    ensures { left_in result.stopped result.past hall.new list.new ≡ ran_of list.old bytes.now }
{
    clear_box(hall);
    let mut at = 0;
    let mut past = 0;
    loop {
        let step = hall::take_record(&bytes[at..], hall, list);
        if step.passed == 0 {
            return Ran {
                past,
                stopped: step.answer,
            };
        }
        at += step.passed;
        past += 1;
    }
}
