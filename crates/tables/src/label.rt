// Labels: 512 words, link l's at 8 l to 8 l + 7, and atom k the bit k % 64 of the word k / 64 of these.
ghost use Rattle.std.specs.Prelude.{◌<◌};
ghost use Rattle.lent.specs.Owners.{Words};
ghost use Rattle.tables.specs.Bits.{Put, TakenOff, Moved, IsLink, link_number};

use crate::atom::Atom;

// What the type of a label table says of its list, for callers' proofs: tried without, and the proof didn't close. After a call that
// was lent the hall the check knows neither how long the table is nor that its words fit, before one is read.
pub fn known(label: &[u64; 512])
    ensures { Words label.now }
{
    let _word = label[0];
}

// Puts an atom on a link.
pub fn put(label: &mut [u64; 512], link: usize, atom: Atom)
    requires { (link < 64) × (atom.0 < 512) }
    ensures { Put label.old label.new link atom.0 }
{
    let k = atom.0 as usize;
    label[8 * link + k / 64] |= 1 << (k % 64);
}

// Takes an atom off a link.
pub fn take_off(label: &mut [u64; 512], link: usize, atom: Atom)
    requires { (link < 64) × (atom.0 < 512) }
    ensures { TakenOff label.old label.new link atom.0 }
{
    let k = atom.0 as usize;
    label[8 * link + k / 64] &= !(1 << (k % 64));
}

// Moves an atom from the link old to the link new, where each may be none.
pub fn move_atom(label: &mut [u64; 512], old: Option<usize>, new: Option<usize>, atom: Atom)
    requires { IsLink old × IsLink new × (atom.0 < 512) }
    ensures { Moved label.old label.new (link_number old) (link_number new) atom.0 }
{
    if let Some(link) = old {
        take_off(label, link, atom);
    }
    if let Some(link) = new {
        put(label, link, atom);
    }
}
