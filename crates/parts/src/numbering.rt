// The number of a solver variable: the one routine.
ghost use Rattle.std.specs.Prelude.{◌≡◌, ◌+◌, ◌<◌, ◌≤◌, T};
ghost use Rattle.model.specs.Bounds.{KnownTotals};
ghost use Rattle.model.specs.Form.{well_formed};
ghost use Rattle.parts.specs.Numbering.{variable_number};

use model::{Model, Totals};

// The number, from 1, of place `p` in the block of state `t` and the choice block after it. `z` are the totals of `m`. No value on the way leaves
// 16 bits (specs/Numbering.antt: `InSixteenBits`); the number is widened at the end.
#[tactic(auto, using(crate::proofs::NumberingLaws::way_in, crate::proofs::NumberingLaws::number_is))]
pub fn variable_number(m: Model, z: Totals, t: usize, p: usize) -> usize
    requires { T (well_formed m) × KnownTotals m z × (t ≤ 64) × (p < z.state + z.choices) }
    ensures { result ≡ variable_number m t p }
{
    let state = z.state as u16;
    let choices = z.choices as u16;
    (t as u16 * (state + choices) + p as u16 + 1) as usize
}
