// Writers of a step's choice group and of its delays, from the state block that begins at `o`, variables counted from 0.
ghost use Rattle.std.specs.Prelude.{◌+◌, ◌<◌, ◌≤◌};
ghost use Rattle.list.specs.Items.{choice_items, delay_items, delays_items};
ghost use Rattle.list.specs.Clauses.{one_hot_width, clauses_of};
ghost use Rattle.parts.specs.Numbering.{most_variables};
ghost use Rattle.parts.specs.Rules.{part_clauses, Fits};
ghost use Rattle.parts.specs.PartsOf.{delay_part};
ghost use Rattle.emission.specs.Written.{RoomFor, WroteClauses};
ghost use Rattle.emission.specs.Writable.{StepFits};

use crate::rules::put_row;
use crate::words::put_group;
use parts::layout::Layout;
use parts::{GroupTable, Rule};

// The group clauses of the choice.
pub fn put_choice(layout: &Layout, o: usize, out: &mut [i32], at: usize) -> usize
    requires { StepFits layout.now.model o × RoomFor (clauses_of (choice_items one_hot_width layout.now.model o)) out.old at }
    ensures { WroteClauses (clauses_of (choice_items one_hot_width layout.now.model o)) out.old out.new at result }
{
    let b = &layout.table;
    let start = o as u16 + b.state as u16;
    put_group(start as usize, b.choices, out, at)
}

// Delay `d` on group `g`, under its choice `x`: a clock rises to M at most, all else stays.
fn put_delay_group(
    b: &GroupTable,
    x: usize,
    o: usize,
    d: usize,
    g: usize,
    out: &mut [i32],
    at: usize,
) -> usize
    requires { (x < most_variables) × (d ≤ b.now.top) × (b.now.vars ≤ 4) × Fits (delay_part b.now o d g) most_variables × RoomFor (part_clauses x (delay_part b.now o d g)) out.old at }
    ensures { WroteClauses (part_clauses x (delay_part b.now o d g)) out.old out.new at result }
{
    let group = b.group(g);
    let n = group.size as usize;
    let block = o as u16;
    let before = (block + group.first) as usize;
    let after = (block + b.state as u16 + b.choices as u16 + group.first) as usize;
    if g < 1 + b.vars {
        return put_row(x, before, after, n, Rule::Keep, out, at);
    }
    let rule = Rule::Rise {
        by: d as u8,
        top: b.top,
    };
    put_row(x, before, after, n, rule, out, at)
}

// Delay `d`: each group.
pub fn put_delay(layout: &Layout, o: usize, d: usize, out: &mut [i32], at: usize) -> usize
    requires { StepFits layout.now.model o × (d ≤ layout.now.table.top) × RoomFor (clauses_of (delay_items one_hot_width layout.now.model o d)) out.old at }
    ensures { WroteClauses (clauses_of (delay_items one_hot_width layout.now.model o d)) out.old out.new at result }
{
    let b = &layout.table;
    let x = (o as u16 + b.state as u16 + d as u16) as usize;
    let mut end = at;
    for g in 0..b.groups {
        end = put_delay_group(b, x, o, d, g, out, end);
    }
    end
}

// Each delay, 0 to the ceiling.
pub fn put_delays(layout: &Layout, o: usize, out: &mut [i32], at: usize) -> usize
    requires { StepFits layout.now.model o × RoomFor (clauses_of (delays_items one_hot_width layout.now.model o)) out.old at }
    ensures { WroteClauses (clauses_of (delays_items one_hot_width layout.now.model o)) out.old out.new at result }
{
    let mut end = at;
    for d in 0..layout.table.top as usize + 1 {
        end = put_delay(layout, o, d, out, end);
    }
    end
}
