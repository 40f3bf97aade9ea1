// Writers of the state clauses of the state block that begins at `o`, variables counted from 0.
ghost use Rattle.std.specs.Prelude.{◌≡◌, ℕ, ◌<◌, ◌≤◌};
ghost use Rattle.model.specs.Indexed.{each};
ghost use Rattle.model.specs.Record.{atom_at};
ghost use Rattle.list.specs.Items.{group_items, invariant_of, invariant_items, state_items};
ghost use Rattle.list.specs.Clauses.{one_hot_width, clauses_of};
ghost use Rattle.parts.specs.Numbering.{most_variables};
ghost use Rattle.parts.specs.Rules.{part_clauses, Fits};
ghost use Rattle.parts.specs.PartsOf.{atom_part};
ghost use Rattle.parts.specs.Pieces.{group_piece, atom_piece};
ghost use Rattle.emission.specs.Written.{RoomFor, WroteClauses};
ghost use Rattle.emission.specs.Compared.{comparison};
ghost use Rattle.emission.specs.Writable.{StateFits};

use crate::rules::put_row;
use crate::words::put_group;
use model::{Atom, Model, Relation};
use parts::layout::Layout;
use parts::{GroupTable, Rule};

// The group clauses of group `g`.
pub fn put_group_at(layout: &Layout, o: usize, g: usize, out: &mut [i32], at: usize) -> usize
    requires { StateFits layout.now.model o × (g < layout.now.table.groups) × RoomFor (group_piece layout.now.table o g) out.old at }
    ensures { WroteClauses (group_piece layout.now.table o g) out.old out.new at result }
{
    let group = layout.table.group(g);
    let start = o as u16 + group.first;
    put_group(start as usize, group.size as usize, out, at)
}

// The group clauses of each group.
fn put_groups(layout: &Layout, o: usize, out: &mut [i32], at: usize) -> usize
    requires { StateFits layout.now.model o × RoomFor (clauses_of (group_items one_hot_width layout.now.model o)) out.old at }
    ensures { WroteClauses (clauses_of (group_items one_hot_width layout.now.model o)) out.old out.new at result }
{
    let mut end = at;
    for g in 0..layout.table.groups {
        end = put_group_at(layout, o, g, out, end);
    }
    end
}

// What an atom compares: a group, by a relation with a constant. So clocks and counters are written by one call, and the code of an atom is short
// enough to stand in its loop.
#[derive(Clone, Copy, Debug, PartialEq, Eq)]
pub struct Comparison {
    pub group: usize,
    pub relation: Relation,
    pub constant: u8,
}

// A blank slot compares nothing. There are `vars` counters.
fn compared(vars: usize, atom: Atom) -> Option<Comparison>
    requires { vars ≤ 4 }
    ensures { result ≡ comparison vars atom }
{
    match atom {
        Atom::Blank => None,
        Atom::OnClock {
            clock,
            relation,
            constant,
        } => Some(Comparison {
            group: 1 + vars + clock as usize,
            relation,
            constant,
        }),
        Atom::OnCounter {
            counter,
            relation,
            constant,
        } => Some(Comparison {
            group: 1 + counter as usize,
            relation,
            constant,
        }),
    }
}

// An atom under `x`: each value of its group that fails it.
fn put_atom(b: &GroupTable, x: usize, o: usize, atom: Atom, out: &mut [i32], at: usize) -> usize
    requires { (b.now.vars ≤ 4) × (x < most_variables) × Fits (atom_part b.now o atom) most_variables × RoomFor (part_clauses x (atom_part b.now o atom)) out.old at }
    ensures { WroteClauses (part_clauses x (atom_part b.now o atom)) out.old out.new at result }
{
    match compared(b.vars, atom) {
        None => at,
        Some(
            Comparison {
                group,
                relation,
                constant,
            },
        ) => {
            let read = b.group(group);
            let before = o as u16 + read.first;
            let rule = Rule::Exclude { relation, constant };
            put_row(x, before as usize, 0, read.size as usize, rule, out, at)
        }
    }
}

// The atoms of an invariant or a guard under `x`, in order of the slots.
pub fn put_atoms(
    b: &GroupTable,
    x: usize,
    o: usize,
    atoms: &[Atom; Model::ATOMS],
    out: &mut [i32],
    at: usize,
) -> usize
    requires { (b.now.vars ≤ 4) × (x < most_variables) × ((k : ℕ) → k < 4 → Fits (atom_part b.now o (atom_at atoms.now k)) most_variables) × RoomFor (each 4 (atom_piece b.now o x atoms.now)) out.old at }
    ensures { WroteClauses (each 4 (atom_piece b.now o x atoms.now)) out.old out.new at result }
{
    let mut end = at;
    for atom in atoms {
        end = put_atom(b, x, o, *atom, out, end);
    }
    end
}

// The invariant of location `l`.
pub fn put_invariant(layout: &Layout, o: usize, l: usize, out: &mut [i32], at: usize) -> usize
    requires { StateFits layout.now.model o × (l < layout.now.model.locations) × RoomFor (clauses_of (invariant_of one_hot_width layout.now.model o l)) out.old at }
    ensures { WroteClauses (clauses_of (invariant_of one_hot_width layout.now.model o l)) out.old out.new at result }
{
    let x = o as u16 + l as u16;
    let atoms = &layout.model.invariants[l].atoms;
    put_atoms(&layout.table, x as usize, o, atoms, out, at)
}

// The invariant of each location.
fn put_invariants(layout: &Layout, o: usize, out: &mut [i32], at: usize) -> usize
    requires { StateFits layout.now.model o × RoomFor (clauses_of (invariant_items one_hot_width layout.now.model o)) out.old at }
    ensures { WroteClauses (clauses_of (invariant_items one_hot_width layout.now.model o)) out.old out.new at result }
{
    let mut end = at;
    for l in 0..layout.model.locations as usize {
        end = put_invariant(layout, o, l, out, end);
    }
    end
}

// The state clauses: each group, then each invariant.
pub fn put_state(layout: &Layout, o: usize, out: &mut [i32], at: usize) -> usize
    requires { StateFits layout.now.model o × RoomFor (clauses_of (state_items one_hot_width layout.now.model o)) out.old at }
    ensures { WroteClauses (clauses_of (state_items one_hot_width layout.now.model o)) out.old out.new at result }
{
    let groups = put_groups(layout, o, out, at);
    put_invariants(layout, o, out, groups)
}
