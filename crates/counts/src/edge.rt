// How many clauses and words the invariant of a location and an edge have, wherever the state block begins.
ghost use Rattle.std.specs.Prelude.{ℕ, ◌+◌, ◌<◌};
ghost use Rattle.list.specs.Items.{invariant_of, edge_of};
ghost use Rattle.list.specs.Clauses.{one_hot_width, clauses_of};
ghost use Rattle.parts.specs.Rules.{part_clauses};
ghost use Rattle.parts.specs.PartsOf.{atom_part};
ghost use Rattle.parts.specs.Pieces.{edge_piece};
ghost use Rattle.counts.specs.Counted.{Counted};

use crate::Count;
use crate::part::count_part;
use model::{Atom, Edge, Model};
use parts::layout::Layout;

// The values that fail an atom.
fn atom_count(l: &Layout, atom: Atom) -> Count
    ensures { (x o : ℕ) → Counted (part_clauses x (atom_part l.now.table o atom)) result.clauses result.words }
{
    count_part(l.table.atom_part(0, atom))
}

// The values that fail the invariant of location `i`.
pub fn invariant_count(l: &Layout, i: usize) -> Count
    requires { i < l.now.model.locations }
    ensures { (o : ℕ) → Counted (clauses_of (invariant_of one_hot_width l.now.model o i)) result.clauses result.words }
{
    let atoms = &l.model.invariants[i].atoms;
    Count::sum(Model::ATOMS, |k| atom_count(l, atoms[k]))
}

// Part `j` of an edge.
fn edge_part_count(l: &Layout, e: &Edge, j: usize) -> Count
    requires { j < l.now.table.groups + 5 }
    ensures { (x o : ℕ) → Counted (edge_piece x l.now.table e.now o j) result.clauses result.words }
{
    count_part(l.table.edge_part(e, 0, j))
}

// Edge `i`, part after part.
pub fn edge_count(l: &Layout, i: usize) -> Count
    requires { i < l.now.model.used }
    ensures { (o : ℕ) → Counted (clauses_of (edge_of one_hot_width l.now.model o i)) result.clauses result.words }
{
    let e = &l.model.edges[i];
    Count::sum(l.table.groups + 5, |j| edge_part_count(l, e, j))
}
