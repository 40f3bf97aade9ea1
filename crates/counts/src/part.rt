// How many clauses and words a part of the list has. Neither depends on the numbers of the variables.
ghost use Rattle.std.specs.Prelude.{◌≡◌, ◌≤◌};
ghost use Rattle.model.specs.Indexed.{sum_below};
ghost use Rattle.parts.specs.declared.Rule.TheVariants.{Exclude, Shift};
ghost use Rattle.counts.specs.PartCounts.{rule_count, rule_words, part_count, part_words};

use crate::Count;
use model::Relation;
use new_values::shift;
use parts::{Part, Rule};

// How many of n values fail the comparison.
fn failing_count(relation: Relation, constant: u8, n: usize) -> usize
    requires { n ≤ 32 }
    ensures { result ≡ sum_below (rule_count (Exclude relation constant)) n }
{
    let k = constant as usize;
    match relation {
        Relation::Less => n - n.min(k),
        Relation::LessEqual => n - n.min(k + 1),
        Relation::Equal => n - (k < n) as usize,
        Relation::GreaterEqual => n.min(k),
        Relation::Greater => n.min(k + 1),
        Relation::NotEqual => (k < n) as usize,
    }
}

// Each of n values plus the offset: a clause of three literals, or of two where the result is out of range.
fn shift_words(offset: i8, greatest: u8, n: usize) -> usize
    requires { n ≤ 32 }
    ensures { result ≡ sum_below (rule_words (Shift offset greatest)) n }
{
    let landing = (0..n as u8)
        .filter(|v| shift(offset, greatest, *v).is_some())
        .count();
    n * 3 + landing
}

// What a part has: for each value the clauses of its rule.
pub fn count_part(p: Part) -> Count
    requires { p.size ≤ 32 }
    ensures { (result.clauses ≡ part_count p) × (result.words ≡ part_words p) }
{
    let n = p.size;
    match p.rule {
        Rule::Exclude { relation, constant } => {
            let failing = failing_count(relation, constant, n);
            Count {
                clauses: failing,
                words: failing * 3,
            }
        }
        Rule::Keep | Rule::Rise { .. } => Count {
            clauses: n,
            words: n * 4,
        },
        Rule::Shift { offset, greatest } => Count {
            clauses: n,
            words: shift_words(offset, greatest, n),
        },
        Rule::Set(_) => Count {
            clauses: n,
            words: n * 3,
        },
        Rule::Forbid => Count {
            clauses: n,
            words: n * 2,
        },
    }
}
