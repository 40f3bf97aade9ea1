// Writers of the start's second part: the initial values, variables counted from 0.
ghost use Rattle.std.specs.Prelude.{◌≡◌, ◌≤◌};
ghost use Rattle.model.specs.Automaton.{initial_value};
ghost use Rattle.list.specs.Items.{initial_items};
ghost use Rattle.list.specs.Clauses.{one_hot_width, clauses_of};
ghost use Rattle.parts.specs.StateBlock.{component_at};
ghost use Rattle.emission.specs.Written.{RoomFor, WroteClauses};

use crate::words::put_unit;
use model::Model;
use parts::layout::Layout;

// The initial value of group `g`: the initial location, a counter's initial value, 0 for a clock.
fn initial_value(m: &Model, g: usize) -> u8
    requires { m.now.vars ≤ 4 }
    ensures { result ≡ initial_value m.now (component_at m.now g) }
{
    if g == 0 {
        m.initial
    } else if g <= m.vars as usize {
        m.counters[g - 1].initial
    } else {
        0
    }
}

// One clause each for the initial location, each counter's initial value, each clock at 0.
pub fn put_initial(layout: &Layout, out: &mut [i32], at: usize) -> usize
    requires { RoomFor (clauses_of (initial_items one_hot_width layout.now.model)) out.old at }
    ensures { WroteClauses (clauses_of (initial_items one_hot_width layout.now.model)) out.old out.new at result }
{
    let mut end = at;
    for g in 0..layout.table.groups {
        let first = layout.table.group(g).first;
        let v = initial_value(&layout.model, g) as u16;
        end = put_unit((first + v) as usize, out, end);
    }
    end
}
