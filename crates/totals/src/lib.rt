// Questions about a record: its ceiling, and the lengths of its blocks.
#![tactic(auto)]

ghost use Rattle.std.specs.Prelude.{◌≡◌};
ghost use Rattle.totals.specs.CeilingCall.{ceiling_told, ceiling_report};
ghost use Rattle.totals.specs.TotalsCall.{totals_told, totals_report};

use form::{ListRefusal, check_bound, well_formed};
use model::Model;

// The lengths of a state block and of a choice block, and the number of variables for the bound.
#[derive(Clone, Copy, Debug, PartialEq, Eq)]
pub struct BlockTotals {
    pub state: usize,
    pub choices: usize,
    pub variables: usize,
}

// M: 20.
#[tactic(auto, unfolding(crate::specs::CeilingCall::ceiling_report))]
pub fn ceiling_of(m: Model) -> Result<usize, ListRefusal>
    ensures { ceiling_told result ≡ ceiling_report m }
{
    if !well_formed(m) {
        return Err(ListRefusal::NotWellFormed);
    }
    Ok(m.ceiling())
}

// S, H and N: 20, 21.
#[tactic(auto, using(form::proofs::BoundLaws::bound_accepted, crate::proofs::TotalsLaws::told_refused, crate::proofs::TotalsLaws::told_accepted))]
pub fn totals_of(m: Model, bound: usize) -> Result<BlockTotals, ListRefusal>
    ensures { totals_told result ≡ totals_report m bound }
{
    check_bound(m, bound)?;
    let z = m.totals();
    Ok(BlockTotals {
        state: z.state,
        choices: z.choices,
        variables: m.variables(bound as u8),
    })
}
