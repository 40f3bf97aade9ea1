// Checks of the list's pieces other than the edges' clauses: start, choices and delays, states.
ghost use Rattle.std.specs.Prelude.{◌≡◌, ◌+◌, ◌*◌, ◌<◌, ◌≤◌, T, length};
ghost use Rattle.model.specs.Indexed.{each};
ghost use Rattle.model.specs.Automaton.{state_size, initial_value};
ghost use Rattle.model.specs.Form.{well_formed};
ghost use Rattle.list.specs.Items.{state_items, initial_items, start_items, invariant_of};
ghost use Rattle.list.specs.Clauses.{one_hot_width, clauses_of};
ghost use Rattle.search.specs.Checking.{Checked};
ghost use Rattle.search.specs.Limits.{most_block_clauses, most_state_clauses, most_start_clauses, most_delay_clauses, most_front_clauses, most_counted};
ghost use Rattle.counts.specs.Tables.{Table, most_invariant_clauses};
ghost use Rattle.parts.specs.Numbering.{most_variables};
ghost use Rattle.parts.specs.StateBlock.{component_at, Bounded};
ghost use Rattle.parts.specs.Pieces.{StepIn, group_piece, location_piece, delay_pieces, front_piece};

use crate::truth::{check_group, check_part, counted, is_true};
use model::Model;
use parts::GroupTable;
use parts::layout::Layout;

// The group clauses of the state block that begins at `o`.
fn check_groups(layout: &Layout, a: &[u8], o: usize, at: usize) -> Result<usize, usize>
    requires { (o + state_size layout.now.model ≤ length a.now) × (at + most_block_clauses ≤ most_counted) }
    ensures { Checked a.now (each layout.now.table.groups (group_piece layout.now.table o)) at most_block_clauses result }
{
    let b = &layout.table;
    let mut count = at;
    for group in &b.blocks[..b.groups] {
        count = check_group(a, o + group.first as usize, group.size as usize, count)?;
    }
    Ok(count)
}

// The clauses of the invariant of location `l`, in the state block that begins at `o`. All are true if the location is false.
fn check_location(
    layout: &Layout,
    table: &[usize; Model::LOCATIONS],
    a: &[u8],
    o: usize,
    l: usize,
    at: usize,
) -> Result<usize, usize>
    requires { Table (invariant_of one_hot_width layout.now.model) layout.now.model.locations 16 most_invariant_clauses table.now
        × (l < layout.now.model.locations) × (o ≤ most_variables) × (o + state_size layout.now.model ≤ length a.now)
        × (at + most_invariant_clauses ≤ most_counted) }
    ensures { Checked a.now (location_piece layout.now.model layout.now.table o l) at most_invariant_clauses result }
{
    let location = o + l;
    if !is_true(a, location) {
        return Ok(at + table[l]);
    }
    let mut count = at;
    for atom in &layout.model.invariants[l].atoms {
        count = check_part(a, location, layout.table.atom_part(o, *atom), count)?;
    }
    Ok(count)
}

// The state clauses of the state block that begins at `o`: its groups, then the invariants.
pub fn check_state(
    layout: &Layout,
    table: &[usize; Model::LOCATIONS],
    a: &[u8],
    o: usize,
    at: usize,
) -> Result<usize, usize>
    requires { Table (invariant_of one_hot_width layout.now.model) layout.now.model.locations 16 most_invariant_clauses table.now
        × (o ≤ most_variables) × (o + state_size layout.now.model ≤ length a.now) × (at + most_state_clauses ≤ most_counted) }
    ensures { Checked a.now (clauses_of (state_items one_hot_width layout.now.model o)) at most_state_clauses result }
{
    let mut count = check_groups(layout, a, o, at)?;
    for l in 0..layout.model.locations as usize {
        count = check_location(layout, table, a, o, l, count)?;
    }
    Ok(count)
}

// The initial value of group `g`.
fn initial_value(m: &Model, g: usize) -> u8
    requires { T (well_formed m.now) }
    ensures { result ≡ initial_value m.now (component_at m.now g) }
{
    if g == 0 {
        m.initial
    } else if g <= m.vars as usize {
        m.counters[g - 1].initial
    } else {
        0
    }
}

// The clauses of the initial values.
fn check_initial(layout: &Layout, a: &[u8], at: usize) -> Result<usize, usize>
    requires { (state_size layout.now.model ≤ length a.now) × (at + 9 ≤ most_counted) }
    ensures { Checked a.now (clauses_of (initial_items one_hot_width layout.now.model)) at 9 result }
{
    let b = &layout.table;
    let mut count = at;
    for g in 0..b.groups {
        let x = b.blocks[g].first as usize + initial_value(&layout.model, g) as usize;
        count = counted(is_true(a, x), count)?;
    }
    Ok(count)
}

// The clauses of the start.
pub fn check_start(
    layout: &Layout,
    table: &[usize; Model::LOCATIONS],
    a: &[u8],
) -> Result<usize, usize>
    requires { Table (invariant_of one_hot_width layout.now.model) layout.now.model.locations 16 most_invariant_clauses table.now
        × (state_size layout.now.model ≤ length a.now) }
    ensures { Checked a.now (clauses_of (start_items one_hot_width layout.now.model)) 0 most_start_clauses result }
{
    let count = check_state(layout, table, a, 0, 0)?;
    check_initial(layout, a, count)
}

// The clauses of delay `d` from the state block that begins at `o`. All are true if the delay is false, one for each member of the state block.
fn check_delay(b: &GroupTable, a: &[u8], o: usize, d: u8, at: usize) -> Result<usize, usize>
    requires { Bounded b.now × (o ≤ most_variables) × StepIn b.now o (length a.now) × (d ≤ b.now.top) × (at + most_delay_clauses ≤ most_counted) }
    ensures { Checked a.now (delay_pieces b.now o d) at most_delay_clauses result }
{
    let x = o + b.state + d as usize;
    if !is_true(a, x) {
        return Ok(at + b.state);
    }
    let mut count = at;
    for g in 0..b.groups {
        count = check_part(a, x, b.delay_part(o, d, g), count)?;
    }
    Ok(count)
}

// The clauses of all delays from the state block that begins at `o`.
fn check_delays(b: &GroupTable, a: &[u8], o: usize, at: usize) -> Result<usize, usize>
    requires { Bounded b.now × (o ≤ most_variables) × StepIn b.now o (length a.now) × (at + 32 * most_delay_clauses ≤ most_counted) }
    ensures { Checked a.now (each (b.now.top + 1) (delay_pieces b.now o)) at (32 * most_delay_clauses) result }
{
    let mut count = at;
    for d in 0..=b.top {
        count = check_delay(b, a, o, d, count)?;
    }
    Ok(count)
}

// The clauses of a step up to its edges: the choice's group, then the delays.
pub fn check_front(b: &GroupTable, a: &[u8], o: usize, at: usize) -> Result<usize, usize>
    requires { Bounded b.now × (o ≤ most_variables) × StepIn b.now o (length a.now) × (at + most_front_clauses ≤ most_counted) }
    ensures { Checked a.now (front_piece b.now o) at most_front_clauses result }
{
    let count = check_group(a, o + b.state, b.choices, at)?;
    check_delays(b, a, o, count)
}
