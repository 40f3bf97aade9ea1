// Writers of an edge's clauses, from the state block that begins at `o`; `x` is the variable of its choice. Variables are counted from 0.
ghost use Rattle.std.specs.Prelude.{ℕ, ◌+◌, ◌-◌, ◌<◌, ◌≤◌};
ghost use Rattle.model.specs.Indexed.{each};
ghost use Rattle.model.specs.Record.{update_at, reset_at};
ghost use Rattle.list.specs.Items.{edge_of};
ghost use Rattle.list.specs.Clauses.{one_hot_width, clauses_of};
ghost use Rattle.parts.specs.Numbering.{most_variables};
ghost use Rattle.parts.specs.Rules.{part_clauses, Fits};
ghost use Rattle.parts.specs.StateBlock.{Bounded};
ghost use Rattle.parts.specs.PartsOf.{update_part, reset_part};
ghost use Rattle.emission.specs.Written.{RoomFor, WroteClauses};
ghost use Rattle.emission.specs.Writable.{StepFits};

use crate::rules::put_row;
use crate::state::put_atoms;
use crate::words::put_implication;
use model::{ClockUpdate, Edge, Model, Update};
use parts::layout::Layout;
use parts::{GroupTable, Rule, read_at};

// Counter `i`, by its update.
fn put_update(
    b: &GroupTable,
    x: usize,
    o: usize,
    order: [u8; Model::COUNTERS],
    i: usize,
    update: Update,
    out: &mut [i32],
    at: usize,
) -> usize
    requires { (x < most_variables) × (i < 4) × Fits (update_part b.now o order i update) most_variables × RoomFor (part_clauses x (update_part b.now o order i update)) out.old at }
    ensures { WroteClauses (part_clauses x (update_part b.now o order i update)) out.old out.new at result }
{
    let group = b.group(1 + i);
    let size = group.size as usize;
    let greatest = b.counters[i].greatest;
    let block = o as u16;
    let next = block + b.state as u16 + b.choices as u16;
    let after = (next + group.first) as usize;
    match update {
        Update::Keep => {
            let kept = (block + group.first) as usize;
            put_row(x, kept, after, size, Rule::Keep, out, at)
        }
        Update::Constant(n) => {
            if n <= greatest {
                put_row(x, 0, after, 1, Rule::Set(n), out, at)
            } else {
                put_row(x, 0, after, 1, Rule::Forbid, out, at)
            }
        }
        Update::Sum { source, offset } => {
            let read = b.group(1 + source as usize);
            let following = next as usize;
            let from = read_at(order, source, i as u8, o, following);
            let before = (from as u16 + read.first) as usize;
            let rule = Rule::Shift { offset, greatest };
            put_row(x, before, after, read.size as usize, rule, out, at)
        }
    }
}

// Each counter's update.
fn put_updates(b: &GroupTable, x: usize, o: usize, e: &Edge, out: &mut [i32], at: usize) -> usize
    requires { (x < most_variables) × (b.now.vars ≤ 4) × ((i : ℕ) → i < b.now.vars → Fits (update_part b.now o e.now.order i (update_at e.now i)) most_variables) × RoomFor (each b.now.vars (λ i. part_clauses x (update_part b.now o e.now.order i (update_at e.now i)))) out.old at }
    ensures { WroteClauses (each b.now.vars (λ i. part_clauses x (update_part b.now o e.now.order i (update_at e.now i)))) out.old out.new at result }
{
    let mut end = at;
    for i in 0..b.vars {
        end = put_update(b, x, o, e.order, i, e.updates[i], out, end);
    }
    end
}

// Clock `i`, by its update.
fn put_reset(
    b: &GroupTable,
    x: usize,
    o: usize,
    i: usize,
    update: ClockUpdate,
    out: &mut [i32],
    at: usize,
) -> usize
    requires { (x < most_variables) × (b.now.vars ≤ 4) × (i < 4) × Fits (reset_part b.now o i update) most_variables × RoomFor (part_clauses x (reset_part b.now o i update)) out.old at }
    ensures { WroteClauses (part_clauses x (reset_part b.now o i update)) out.old out.new at result }
{
    let group = b.group(1 + b.vars + i);
    let size = group.size as usize;
    let block = o as u16;
    let later = block + b.state as u16 + b.choices as u16;
    let after = (later + group.first) as usize;
    match update {
        ClockUpdate::Unchanged => {
            let unchanged = (block + group.first) as usize;
            put_row(x, unchanged, after, size, Rule::Keep, out, at)
        }
        ClockUpdate::Reset => put_row(x, 0, after, 1, Rule::Set(0), out, at),
        ClockUpdate::Copy { source } => {
            let read = b.group(1 + b.vars + source as usize);
            let copied = (block + read.first) as usize;
            put_row(x, copied, after, read.size as usize, Rule::Keep, out, at)
        }
    }
}

// Each clock.
fn put_resets(b: &GroupTable, x: usize, o: usize, e: &Edge, out: &mut [i32], at: usize) -> usize
    requires { (x < most_variables) × Bounded b.now × ((i : ℕ) → i < b.now.groups - (1 + b.now.vars) → Fits (reset_part b.now o i (reset_at e.now i)) most_variables) × RoomFor (each (b.now.groups - (1 + b.now.vars)) (λ i. part_clauses x (reset_part b.now o i (reset_at e.now i)))) out.old at }
    ensures { WroteClauses (each (b.now.groups - (1 + b.now.vars)) (λ i. part_clauses x (reset_part b.now o i (reset_at e.now i)))) out.old out.new at result }
{
    let mut end = at;
    for i in 0..b.groups - (1 + b.vars) {
        end = put_reset(b, x, o, i, e.resets[i], out, end);
    }
    end
}

// Edge `e`: source, target, guard, counters, clocks.
fn put_edge(layout: &Layout, o: usize, e: usize, out: &mut [i32], at: usize) -> usize
    requires { StepFits layout.now.model o × (e < layout.now.model.used) × RoomFor (clauses_of (edge_of one_hot_width layout.now.model o e)) out.old at }
    ensures { WroteClauses (clauses_of (edge_of one_hot_width layout.now.model o e)) out.old out.new at result }
{
    let b = &layout.table;
    let edge = &layout.model.edges[e];
    let block = o as u16;
    let x = (block + b.state as u16 + b.top as u16 + 1 + e as u16) as usize;
    let next = block + b.state as u16 + b.choices as u16;
    let source = block + edge.source as u16;
    let goal = next + edge.target as u16;
    let target = put_implication(x, source as usize, out, at);
    let guarded = put_implication(x, goal as usize, out, target);
    let counters = put_atoms(b, x, o, &edge.guard, out, guarded);
    let clocks = put_updates(b, x, o, edge, out, counters);
    put_resets(b, x, o, edge, out, clocks)
}

// `count` of the edges, from edge `from` on; edge e is choice M + 1 + e. All edges of a step and one alone are written here, so that `put_edge` has
// one caller and is compiled in place.
pub fn put_edges(
    layout: &Layout,
    o: usize,
    from: usize,
    count: usize,
    out: &mut [i32],
    at: usize,
) -> usize
    requires { StepFits layout.now.model o × (from + count ≤ layout.now.model.used) × RoomFor (each count (λ i. clauses_of (edge_of one_hot_width layout.now.model o (from + i)))) out.old at }
    ensures { WroteClauses (each count (λ i. clauses_of (edge_of one_hot_width layout.now.model o (from + i)))) out.old out.new at result }
{
    let mut end = at;
    for i in 0..count {
        end = put_edge(layout, o, from + i, out, end);
    }
    end
}
