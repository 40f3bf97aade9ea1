// The search for the first clause of the list that an assignment makes false. It stores no list.
#![tactic(auto)]

ghost use Rattle.std.specs.Prelude.{◌≡◌, ◌+◌, ◌*◌, ◌<◌, ◌≤◌, T, length};
ghost use Rattle.model.specs.Indexed.{each};
ghost use Rattle.model.specs.Automaton.{state_size, choices, variables};
ghost use Rattle.model.specs.Form.{well_formed};
ghost use Rattle.list.specs.Items.{block_at, invariant_of, edge_of};
ghost use Rattle.list.specs.Clauses.{one_hot_width, clauses};
ghost use Rattle.list.specs.Assignments.{first_false};
ghost use Rattle.counts.specs.Tables.{Table, most_invariant_clauses, most_edge_clauses};
ghost use Rattle.search.specs.Checking.{Checked};
ghost use Rattle.search.specs.Limits.{most_step_clauses, most_counted};
ghost use Rattle.parts.specs.Numbering.{most_variables};
ghost use Rattle.parts.specs.Pieces.{edge_clauses, step_clauses};

use crate::pieces::{check_front, check_start, check_state};
use crate::truth::{check_part, counted, is_true};
use counts::tables::{edge_table, invariant_table};
use model::Model;
use parts::layout::Layout;

mod pieces;
mod truth;

// The clauses of edge `e` from the state block that begins at `o`. All are true if the edge is false: they are counted and not looked at.
fn check_edge(
    layout: &Layout,
    table: &[usize; Model::EDGES],
    a: &[u8],
    o: usize,
    e: usize,
    at: usize,
) -> Result<usize, usize>
    requires { Table (edge_of one_hot_width layout.now.model) layout.now.model.used 32 most_edge_clauses table.now × (e < layout.now.model.used)
        × (o ≤ most_variables) × (o + state_size layout.now.model + choices layout.now.model + state_size layout.now.model ≤ length a.now)
        × (at + most_edge_clauses ≤ most_counted) }
    ensures { Checked a.now (edge_clauses layout.now.model o e) at most_edge_clauses result }
{
    let b = &layout.table;
    let edges_at = b.state + b.top as usize + 1;
    let x = o + edges_at + e;
    if !is_true(a, x) {
        return Ok(at + table[e]);
    }
    let edge = &layout.model.edges[e];
    let mut count = at;
    for j in 0..b.groups + 5 {
        count = check_part(a, x, b.edge_part(edge, o, j), count)?;
    }
    Ok(count)
}

// The clauses of all edges from the state block that begins at `o`.
fn check_edges(
    layout: &Layout,
    table: &[usize; Model::EDGES],
    a: &[u8],
    o: usize,
    at: usize,
) -> Result<usize, usize>
    requires { Table (edge_of one_hot_width layout.now.model) layout.now.model.used 32 most_edge_clauses table.now
        × (o ≤ most_variables) × (o + state_size layout.now.model + choices layout.now.model + state_size layout.now.model ≤ length a.now)
        × (at + 32 * most_edge_clauses ≤ most_counted) }
    ensures { Checked a.now (each layout.now.model.used (edge_clauses layout.now.model o)) at (32 * most_edge_clauses) result }
{
    let mut count = at;
    for e in 0..layout.model.used as usize {
        count = check_edge(layout, table, a, o, e, count)?;
    }
    Ok(count)
}

// The clauses of the step from state `t`: its choice and delays, its edges, the state after it.
fn check_step(
    layout: &Layout,
    invariants: &[usize; Model::LOCATIONS],
    edges: &[usize; Model::EDGES],
    a: &[u8],
    t: usize,
    at: usize,
) -> Result<usize, usize>
    requires { Table (invariant_of one_hot_width layout.now.model) layout.now.model.locations 16 most_invariant_clauses invariants.now
        × Table (edge_of one_hot_width layout.now.model) layout.now.model.used 32 most_edge_clauses edges.now
        × (t < 64)
        × (block_at one_hot_width layout.now.model t + state_size layout.now.model + choices layout.now.model + state_size layout.now.model ≤ length a.now)
        × (at + most_step_clauses ≤ most_counted) }
    ensures { Checked a.now (step_clauses layout.now.model t) at most_step_clauses result }
{
    let o = layout.block_start(t);
    let front = check_front(&layout.table, a, o, at)?;
    let count = check_edges(layout, edges, a, o, front)?;
    check_state(layout, invariants, a, layout.block_start(t + 1), count)
}

// The clauses of the steps.
fn check_steps(
    layout: &Layout,
    invariants: &[usize; Model::LOCATIONS],
    edges: &[usize; Model::EDGES],
    bound: usize,
    a: &[u8],
    at: usize,
) -> Result<usize, usize>
    requires { Table (invariant_of one_hot_width layout.now.model) layout.now.model.locations 16 most_invariant_clauses invariants.now
        × Table (edge_of one_hot_width layout.now.model) layout.now.model.used 32 most_edge_clauses edges.now
        × (bound ≤ 64) × (length a.now ≡ variables layout.now.model bound) × (at + 64 * most_step_clauses ≤ most_counted) }
    ensures { Checked a.now (each bound (step_clauses layout.now.model)) at (64 * most_step_clauses) result }
{
    let mut count = at;
    for t in 0..bound {
        count = check_step(layout, invariants, edges, a, t, count)?;
    }
    Ok(count)
}

// The clauses of the list for `bound`: start, steps, end.
fn check_list(layout: &Layout, bound: usize, a: &[u8]) -> Result<usize, usize>
    requires { (bound ≤ 64) × (length a.now ≡ variables layout.now.model bound) }
    ensures { Checked a.now (clauses layout.now.model bound) 0 most_counted result }
{
    let invariants = invariant_table(layout);
    let start = check_start(layout, &invariants, a)?;
    let edges = edge_table(layout);
    let count = check_steps(layout, &invariants, &edges, bound, a, start)?;
    let end = layout.variable_number(bound, layout.model.target as usize) - 1;
    counted(is_true(a, end), count)
}

// The first clause of the list for `bound` that the assignment makes false.
pub fn first_false(m: Model, bound: usize, a: &[u8]) -> Option<usize>
    requires { T (well_formed m) × (bound ≤ 64) × (length a.now ≡ variables m bound) }
    ensures { result ≡ first_false a.now (clauses m bound) }
{
    check_list(&Layout::new(m), bound, a).err()
}
