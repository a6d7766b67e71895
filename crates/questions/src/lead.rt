// Which node leads to which by a link that has any atom at all: what no atom's walk can do is seen here for all atoms at once.
ghost use Rattle.std.specs.Prelude.{◌≡◌, false, ℕ, ◌+◌, ◌<◌};
ghost use Rattle.questions.specs.Leads.{Empty, Leads, LetLead, Grown, OffLeads, Met, Widened, TowardLeads, OffWalks, TowardWalks};
ghost use Rattle.questions.specs.Moves.{Included};

use meaning::Hall;

// A set of the 16 nodes, a bit for each. No type of its own: most of what is done is one operator on whole sets (`|`, `&`, `!`, `==`), which
// its methods would only wrap, as `more.has_all(*to)` for `*to | more == more`.
pub type Nodes = u16;

// Whether link l has an atom. The words are joined: `any` is slower by 7 % in halls where most links have none (bench class small40).
fn carries(label: &[u64; 512], l: usize) -> bool
    requires { l < 64 }
    ensures { result ≡ false → Empty label.now l }
{
    label[8 * l..8 * l + 8]
        .iter()
        .fold(0, |all, word| all | word)
        != 0
}

// Lets node v lead to node u.
fn join(lead: &mut [Nodes; 16], v: usize, u: u16)
    requires { (v < 16) × (u < 16) }
    ensures { LetLead lead.old lead.new v u }
{
    lead[v] |= 1 << u;
}

// Notes link l: where it has an atom, and goes from a node to a node, the one leads to the other.
fn note_link(hall: &Hall, l: usize, lead: &mut [Nodes; 16])
    requires { (l < 64) × Leads hall.now l lead.old }
    ensures { Leads hall.now (l + 1) lead.new }
{
    let word = hall.plan.link[l];
    let end = word % 1024;
    let source = tables::source_of(word);
    if end < 16 && source < 16 && carries(&hall.label, l) {
        join(lead, source, end);
    }
}

// Which node leads to which: for each node the nodes that it leads to.
fn leads(hall: &Hall) -> [Nodes; 16]
    ensures { Leads hall.now 64 result }
{
    let mut lead = [0u16; 16];
    for l in 0..64 {
        note_link(hall, l, &mut lead);
    }
    lead
}

// Goes on from a set of nodes to a larger one by `step`, until it stays as it is.
fn settle<F: Fn(Nodes) -> Nodes>(start: Nodes, step: F) -> Nodes
    requires callable { F.IsAlwaysCallable step }
    requires grows { (x y : ℕ) → F.post step x y → Included x y }
    ensures from { Grown (F.post step) start result }
    ensures settled { F.post step result result }
{
    let mut nodes = start;
    loop {
        let more = step(nodes);
        if more == nodes {
            return nodes;
        }
        nodes = more;
    }
}

// Of the nodes that lie on no circle of leads, more: those that lead to none but such nodes.
fn off_ahead(lead: &[Nodes; 16], off: Nodes) -> Nodes
    ensures grows { Included off result }
    ensures keeps { OffLeads lead.now off → OffLeads lead.now result }
{
    let mut more = off;
    for (v, to) in lead.iter().enumerate() {
        if *to | more == more {
            more |= 1 << v;
        }
    }
    more
}

// The nodes to which a node leads that is none of `off`.
fn led_to(lead: &[Nodes; 16], off: Nodes) -> Nodes
    ensures { Met lead.now off 16 result }
{
    let mut met = 0;
    for (v, to) in lead.iter().enumerate() {
        if (off >> v) % 2 == 0 {
            met |= *to;
        }
    }
    met
}

// Of the nodes that lie on no circle of leads, more: those to which none but such nodes lead.
fn off_behind(lead: &[Nodes; 16], off: Nodes) -> Nodes
    ensures grows { Included off result }
    ensures keeps { OffLeads lead.now off → OffLeads lead.now result }
{
    off | !led_to(lead, off)
}

// Nodes that lie on no circle of leads: those that do not lead into one, and then those to which none but such nodes lead.
fn off_leads(lead: &[Nodes; 16]) -> Nodes
    ensures { OffLeads lead.now result }
{
    let ahead = settle(0, |off| off_ahead(lead, off));
    settle(ahead, |off| off_behind(lead, off))
}

// Nodes that lie on no circle of any atom's walks.
pub fn off_walks(hall: &Hall) -> Nodes
    ensures { OffWalks hall.now result }
{
    off_leads(&leads(hall))
}

// The nodes of `to`, and those that lead to one of them.
fn toward_once(lead: &[Nodes; 16], to: Nodes) -> Nodes
    ensures { Widened lead.now to 16 result }
{
    let mut more = to;
    for (v, leads_to) in lead.iter().enumerate() {
        if *leads_to & more != 0 {
            more |= 1 << v;
        }
    }
    more
}

// Node w and all that leads to it.
fn toward_leads(lead: &[Nodes; 16], w: u8) -> Nodes
    ensures { TowardLeads lead.now w result }
{
    settle(1 << (w % 16), |to| toward_once(lead, to))
}

// The nodes from which some atom's walk may come to node w.
pub fn toward_walks(hall: &Hall, w: u8) -> Nodes
    ensures { TowardWalks hall.now w result }
{
    toward_leads(&leads(hall), w)
}
