// The clause list, cut into numbered pieces: how many each row has, and a writer of one piece from the start of the lent buffer.
ghost use Rattle.std.specs.Prelude.{◌≡◌, ◌+◌, ◌<◌, ◌≤◌, length};
ghost use Rattle.model.specs.Indexed.{each};
ghost use Rattle.list.specs.Items.{block_at};
ghost use Rattle.list.specs.Clauses.{one_hot_width};
ghost use Rattle.emission.specs.Written.{RoomFor, WroteClauses};
ghost use Rattle.emission.specs.Writable.{StateFits};
ghost use Rattle.emission.specs.Cut.{most_piece_words, state_count, state_piece, step_count, step_piece, row_pieces, piece_of, row_of};

use crate::delay::{put_choice, put_delay};
use crate::edge::put_edges;
use crate::start::put_initial;
use crate::state::{put_group_at, put_invariant};
use crate::{put_end, put_start, put_step};
use parts::layout::Layout;

// How many pieces the state clauses have: a group each, and the invariant of each location.
fn state_pieces(layout: &Layout) -> usize
    ensures { result ≡ state_count layout.now.model }
{
    layout.table.groups + layout.model.locations as usize
}

// How many pieces row `row` has: the start's state clauses and its initial values; a step's; the end.
pub fn row_pieces(layout: &Layout, bound: usize, row: usize) -> usize
    ensures { result ≡ row_pieces layout.now.model bound row }
{
    if row == 0 {
        state_pieces(layout) + 1
    } else if row > bound {
        1
    } else {
        1 + layout.table.choices + state_pieces(layout)
    }
}

// Piece `piece` of the state clauses of the state block at `o`: a group, or the invariant of a location.
fn put_state_piece(layout: &Layout, o: usize, piece: usize, out: &mut [i32]) -> usize
    requires { StateFits layout.now.model o × (piece < state_count layout.now.model) × RoomFor (state_piece layout.now.model o piece) out.old 0 }
    ensures { WroteClauses (state_piece layout.now.model o piece) out.old out.new 0 result }
{
    if piece < layout.table.groups {
        put_group_at(layout, o, piece, out, 0)
    } else {
        put_invariant(layout, o, piece - layout.table.groups, out, 0)
    }
}

// Piece `piece` of step t + 1, from state `t`: the choice, a delay, an edge, or a piece of the state after.
fn put_step_piece(layout: &Layout, t: usize, piece: usize, out: &mut [i32]) -> usize
    requires { (t < 64) × (piece < step_count layout.now.model) × RoomFor (step_piece layout.now.model (block_at one_hot_width layout.now.model t) piece) out.old 0 }
    ensures { WroteClauses (step_piece layout.now.model (block_at one_hot_width layout.now.model t) piece) out.old out.new 0 result }
{
    let o = layout.block_start(t);
    let delays = layout.table.top as usize + 1;
    let choices = layout.table.choices;
    if piece == 0 {
        put_choice(layout, o, out, 0)
    } else if piece <= delays {
        put_delay(layout, o, piece - 1, out, 0)
    } else if piece <= choices {
        put_edges(layout, o, piece - (1 + delays), 1, out, 0)
    } else {
        let next = layout.block_start(t + 1);
        put_state_piece(layout, next, piece - (1 + choices), out)
    }
}

// Piece `piece` of row `row` of the list for `bound`: row 0 is the start, rows 1 to `bound` are the steps, the row after is the end.
pub fn put_piece(layout: &Layout, bound: usize, row: usize, piece: usize, out: &mut [i32]) -> usize
    requires { (bound ≤ 64) × (row ≤ bound + 1) × (piece < row_pieces layout.now.model bound row) × (most_piece_words ≤ length out.old) }
    ensures { WroteClauses (piece_of layout.now.model bound row piece) out.old out.new 0 result }
{
    if row == 0 {
        if piece < state_pieces(layout) {
            put_state_piece(layout, 0, piece, out)
        } else {
            put_initial(layout, out, 0)
        }
    } else if row <= bound {
        put_step_piece(layout, row - 1, piece, out)
    } else {
        put_end(layout, bound, out)
    }
}

// Row `row` of the list for `bound`, whole.
fn put_row(layout: &Layout, bound: usize, row: usize, out: &mut [i32]) -> usize
    requires { (bound ≤ 64) × (row ≤ bound + 1) × RoomFor (row_of layout.now.model bound row) out.old 0 }
    ensures { WroteClauses (row_of layout.now.model bound row) out.old out.new 0 result }
{
    if row == 0 {
        put_start(layout, out)
    } else if bound < row {
        put_end(layout, bound, out)
    } else {
        put_step(layout, row - 1, out)
    }
}

// `count` rows of the list for `bound`, from row `from` on. The whole list and one row alone are written here, so that `put_row` has one caller and is
// compiled in place.
pub fn put_rows(layout: &Layout, bound: usize, from: usize, count: usize, out: &mut [i32]) -> usize
    requires { (bound ≤ 64) × (from + count ≤ bound + 2) × RoomFor (each count (λ i. row_of layout.now.model bound (from + i))) out.old 0 }
    ensures { WroteClauses (each count (λ i. row_of layout.now.model bound (from + i))) out.old out.new 0 result }
{
    let mut at: usize = 0;
    for i in 0..count {
        at += put_row(layout, bound, from + i, &mut out[at..]);
    }
    at
}
