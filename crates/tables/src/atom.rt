// Atoms: the place of an address, the number of the atom there, and how a boundary is made.
ghost use Rattle.std.specs.Prelude.{◌≡◌, false, ℕ, ◌+◌, ◌*◌, ◌^◌, ◌≤◌, ◌<◌, length, get_or};
ghost use Rattle.std.specs.List.{insert, remove};
ghost use Rattle.meaning.specs.Hall.{ipv4};
ghost use Rattle.meaning.specs.Box.{state_of, AtomsHeld};
ghost use Rattle.meaning.specs.Atoms.{place_of, is_boundary, with_cut};
ghost use Rattle.meaning.specs.Tables.{Cuts};
ghost use Rattle.lent.specs.Owners.{WholeBy};
ghost use Rattle.tables.specs.Rows.{Given};

use meaning::{Atoms, Hall};

// A place in address order, and the number of an atom: neither tells the other.
#[derive(Clone, Copy)]
pub struct Place(pub usize);

// No invariant says that an atom's number is below 512, so functions ask it: `atom_at` has no premise, and gives what a table holds.
#[derive(Clone, Copy)]
pub struct Atom(pub u16);

// The place of address a: the last whose lower end is at most a.
pub fn place_of(atoms: &Atoms, a: u64) -> Place
    requires { Cuts (2 ^ ipv4) atoms.now.cut atoms.now.count }
    ensures { (result.0 ≡ place_of atoms.now.cut atoms.now.count a) × (result.0 ≤ atoms.now.count) }
{
    let n = atoms.count as usize;
    Place(atoms.cut[1..n + 1].partition_point(|low| *low <= a))
}

// The atom at a place, and past the last place the atom 0. Nothing else leads from a place to its atom.
pub fn atom_at(number: &[u16; 512], p: Place) -> Atom
    ensures { result.0 ≡ get_or number.now p.0 0 }
{
    Atom(number.get(p.0).copied().unwrap_or(0))
}

// The number of the atom that address a lies in.
pub fn atom_of(atoms: &Atoms, a: u32) -> Atom
    requires { AtomsHeld atoms.now }
    ensures { result.0 ≡ get_or atoms.now.number (place_of atoms.now.cut atoms.now.count a) 0 }
{
    atom_at(&atoms.number, place_of(atoms, a as u64))
}

// The entries from place p to below n move up one place, the last over entry n, and x goes in at p.
fn insert_entry<T: Copy>(list: &mut [T], n: usize, p: Place, x: T)
    requires { (p.0 ≤ n) × (n < length list.old) }
    ensures { list.new ≡ insert (remove list.old n) p.0 x }
{
    list.copy_within(p.0..n, p.0 + 1);
    list[p.0] = x;
}

impl Atom {
    // Where the table of owners has that of the atom at node v.
    pub(crate) fn owner_index(self, v: usize) -> usize
        requires { (self.0 < 512) × (v < 16) }
        ensures { (result ≡ 16 * self.0 + v) × (result < 8192) }
    {
        16 * self.0 as usize + v
    }
}

// Gives the atom new the owners of the atom old, and puts it on the links that they name.
fn give(hall: &mut Hall, old: Atom, new: Atom)
    requires { (old.0 < 512) × (new.0 < 512) × (old.0 ≡ new.0 → ⊥) }
    ensures given { Given hall.old.label hall.new.label hall.old.owner hall.new.owner old.0 new.0 }
    ensures state { state_of hall.new ≡ state_of hall.old }
{
    for v in 0..16 {
        let e = hall.owner[old.owner_index(v)];
        hall.owner[new.owner_index(v)] = e;
        if e != 0 {
            crate::label::put(&mut hall.label, (e / 512 % 64) as usize, new);
        }
    }
}

// Makes b a boundary: a split atom keeps its number for the lower part, and the upper part, with the next number, has the owners
// and the links of the split atom.
pub fn make_boundary(hall: &mut Hall, b: u64)
    requires whole { WholeBy hall.old }
    requires room { (b ≤ 2 ^ ipv4) × (is_boundary (state_of hall.old) b ≡ false → hall.old.atoms.count < 512) }
    ensures state { state_of hall.new ≡ with_cut (state_of hall.old) b }
    ensures whole { WholeBy hall.new }
{
    let atoms = &mut hall.atoms;
    let p = place_of(atoms, b);
    if atoms.cut[p.0] == b {
        return;
    }
    let old = atom_at(&atoms.number, p);
    let new = Atom(atoms.count);
    let n = atoms.count as usize;
    let next = Place(p.0 + 1);
    insert_entry(&mut atoms.cut, n + 1, next, b);
    insert_entry(&mut atoms.number, n, next, new.0);
    atoms.count += 1;
    give(hall, old, new);
}
