// A well-formed model with its totals and its groups, and the block starts that come from them.
ghost use Rattle.std.specs.Prelude.{◌≡◌, ◌+◌, ◌<◌, ◌≤◌, T};
ghost use Rattle.std.specs.Coded.{Coded-set};
ghost use Rattle.model.specs.Automaton.{totals as totals_of};
ghost use Rattle.model.specs.Form.{well_formed};
ghost use Rattle.list.specs.Items.{block_at};
ghost use Rattle.list.specs.Clauses.{one_hot_width};
ghost use Rattle.parts.specs.Numbering.{variable_number};
ghost use Rattle.parts.specs.StateBlock.{group_table};

use crate::numbering::variable_number;
use crate::{GroupTable, group_table};
use model::{Model, Totals};

// A model, its totals and the groups of its state blocks.
#[derive(Clone, Copy, Debug, PartialEq, Eq)]
pub struct Layout {
    pub model: Model,
    pub totals: Totals,
    pub table: GroupTable,
    pub ghost formed: { T (well_formed model) },
    pub ghost counted: { totals ≡ totals_of model } by { Coded-set totals-code totals (totals_of model) },
    pub ghost grouped: { table ≡ group_table model } by { Coded-set table-code table (group_table model) },
}

impl Layout {
    pub fn new(model: Model) -> Layout
        requires { T (well_formed model) }
        ensures { result.model ≡ model }
    {
        let totals = model.totals();
        let table = group_table(&model, &totals);
        Layout {
            model,
            totals,
            table,
        }
    }

    // The number, from 1, of place `p` in the block of state `t` and the choice block after it.
    pub fn variable_number(&self, t: usize, p: usize) -> usize
        requires { (t ≤ 64) × (p < self.now.totals.state + self.now.totals.choices) }
        ensures { result ≡ variable_number self.now.model t p }
    {
        variable_number(self.model, self.totals, t, p)
    }

    // How many variables come before the block of state `t`.
    pub fn block_start(&self, t: usize) -> usize
        requires { t ≤ 64 }
        ensures { result ≡ block_at one_hot_width self.now.model t }
    {
        self.variable_number(t, 0) - 1
    }
}
