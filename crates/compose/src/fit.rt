// Whether a record may hold the model that two models compose.
ghost use Rattle.std.specs.Prelude.{◌≡◌, ◌+◌, ◌≤◌, leb, length};
ghost use Rattle.model.specs.Indexed.{all_below};
ghost use Rattle.model.specs.Record.{invariant_at, edge_at};
ghost use Rattle.compose.specs.Joined.{atom_count};
ghost use Rattle.compose.specs.Moves.{moves};
ghost use Rattle.compose.specs.Composed.{pair_fits, invariants_fit, guards_fit, fits};

use crate::formed::Formed;
use crate::joined::atom_count;
use crate::moves::paired;
use model::{Edge, Model};

// Whether no invariant of the second model takes `n` atoms above 4.
fn invariant_row_fits(n: usize, b: &Formed) -> bool
    requires { n ≤ 4 }
    ensures { result ≡ all_below (λ j. leb (n + atom_count (invariant_at b.now.model j)) 4) b.now.model.locations }
{
    b.invariants()
        .iter()
        .all(|v| n + atom_count(v.atoms) <= Model::ATOMS)
}

fn invariants_fit(a: &Formed, b: &Formed) -> bool
    ensures { result ≡ invariants_fit a.now.model b.now.model }
{
    a.invariants()
        .iter()
        .all(|v| invariant_row_fits(atom_count(v.atoms), b))
}

// Whether the guard of two edges has at most 4 atoms, if they move in a pair.
fn guard_fits(a: &Formed, b: &Formed, e: Edge, f: Edge) -> bool
    ensures { result ≡ pair_fits a.now.model b.now.model e f }
{
    !paired(a, b, e, f) || atom_count(e.guard) + atom_count(f.guard) <= Model::ATOMS
}

fn guard_row_fits(a: &Formed, b: &Formed, e: Edge) -> bool
    ensures { result ≡ all_below (λ f. pair_fits a.now.model b.now.model e (edge_at b.now.model f)) b.now.model.used }
{
    b.edges().iter().all(|f| guard_fits(a, b, e, *f))
}

fn guards_fit(a: &Formed, b: &Formed) -> bool
    ensures { result ≡ guards_fit a.now.model b.now.model }
{
    a.edges().iter().all(|e| guard_row_fits(a, b, *e))
}

// Whether a record may hold the composed model, which has so many edges. Everything is counted wide: 256 locations and 1,024 edges can
// come up.
pub(crate) fn fits(a: &Formed, b: &Formed, edges: usize) -> bool
    requires { edges ≡ length (moves a.now.model b.now.model) }
    ensures { result ≡ fits a.now.model b.now.model }
{
    a.model.locations as usize * b.model.locations as usize <= Model::LOCATIONS
        && a.model.clocks as usize + b.model.clocks as usize <= Model::CLOCKS
        && a.model.vars as usize + b.model.vars as usize <= Model::COUNTERS
        && edges <= Model::EDGES
        && invariants_fit(a, b)
        && guards_fit(a, b)
}
