// Writers of a rule's clauses, variables counted from 0: `x` is the variable of a choice or a location, `before` and `after` are where the groups
// before and after begin. Both are compiled in place: each caller names its rule, and only that rule's loop is left.
ghost use Rattle.std.specs.Prelude.{◌≡◌, ◌+◌, ◌<◌, ◌≤◌};
ghost use Rattle.parts.specs.Numbering.{most_variables};
ghost use Rattle.parts.specs.Rules.{rule_clauses, row_clauses, reach};
ghost use Rattle.emission.specs.Written.{RoomFor, WroteClauses};

use crate::words::{put_exclusion, put_implication, put_joint_implication, put_negated_unit};
use new_values::shift;
use parts::Rule;

// The clauses of a rule for the value `v`, whose variable is `y`.
#[inline(always)]
fn put_value(
    x: usize,
    y: usize,
    after: usize,
    v: usize,
    rule: Rule,
    out: &mut [i32],
    at: usize,
) -> usize
    requires { (x < most_variables) × (y < most_variables) × (v < 32) × (after + reach (v + 1) rule ≤ most_variables) × RoomFor (rule_clauses x y after v rule) out.old at }
    ensures { WroteClauses (rule_clauses x y after v rule) out.old out.new at result }
{
    match rule {
        Rule::Exclude { relation, constant } => {
            if relation.holds(v as u8, constant) {
                at
            } else {
                put_exclusion(x, y, out, at)
            }
        }
        Rule::Keep => {
            let kept = after as u16 + v as u16;
            put_joint_implication(x, y, kept as usize, out, at)
        }
        Rule::Rise { by, top } => {
            let raised = after as u16 + (v as u16 + by as u16).min(top as u16);
            put_joint_implication(x, y, raised as usize, out, at)
        }
        Rule::Shift { offset, greatest } => match shift(offset, greatest, v as u8) {
            None => put_exclusion(x, y, out, at),
            Some(u) => {
                let shifted = after as u16 + u as u16;
                put_joint_implication(x, y, shifted as usize, out, at)
            }
        },
        Rule::Set(u) => {
            let set = after as u16 + u as u16;
            put_implication(x, set as usize, out, at)
        }
        Rule::Forbid => put_negated_unit(x, out, at),
    }
}

// The clauses of a rule for each of `n` values, one after the other.
#[inline(always)]
pub fn put_row(
    x: usize,
    before: usize,
    after: usize,
    n: usize,
    rule: Rule,
    out: &mut [i32],
    at: usize,
) -> usize
    requires { (x < most_variables) × (n ≤ 32) × (before + n ≤ most_variables) × (after + reach n rule ≤ most_variables) × RoomFor (row_clauses x before after n rule) out.old at }
    ensures { WroteClauses (row_clauses x before after n rule) out.old out.new at result }
{
    let mut end = at;
    for v in 0..n {
        let held = before as u16 + v as u16;
        end = put_value(x, held as usize, after, v, rule, out, end);
    }
    end
}
