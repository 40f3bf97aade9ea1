// How many clauses the invariant of each location and each edge has: what a search passes over where the variable is false.
ghost use Rattle.list.specs.Items.{invariant_of, edge_of};
ghost use Rattle.list.specs.Clauses.{one_hot_width};
ghost use Rattle.counts.specs.Tables.{Table, most_invariant_clauses, most_edge_clauses};

use crate::edge::{edge_count, invariant_count};
use model::Model;
use parts::layout::Layout;
use std::array;

// The clauses of each location's invariant in one state.
pub fn invariant_table(l: &Layout) -> [usize; Model::LOCATIONS]
    ensures { Table (invariant_of one_hot_width l.now.model) l.now.model.locations 16 most_invariant_clauses result }
{
    array::from_fn(|i| {
        if i < l.model.locations as usize {
            invariant_count(l, i).clauses
        } else {
            0
        }
    })
}

// The clauses of each edge in one step.
pub fn edge_table(l: &Layout) -> [usize; Model::EDGES]
    ensures { Table (edge_of one_hot_width l.now.model) l.now.model.used 32 most_edge_clauses result }
{
    array::from_fn(|i| {
        if i < l.model.used as usize {
            edge_count(l, i).clauses
        } else {
            0
        }
    })
}
