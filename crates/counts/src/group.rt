// How many clauses and words the groups of a state block and of a choice have.
ghost use Rattle.std.specs.Prelude.{ℕ, ◌≤◌};
ghost use Rattle.model.specs.Indexed.{each};
ghost use Rattle.list.specs.Clauses.{group_clauses};
ghost use Rattle.parts.specs.Pieces.{group_piece};
ghost use Rattle.counts.specs.Counted.{Counted};

use crate::Count;
use parts::layout::Layout;

// A group of n members: all members in one clause, then the pairs, half of n (n - 1).
pub fn group_count(n: usize) -> Count
    requires { n ≤ 64 }
    ensures { (first : ℕ) → Counted (group_clauses first n) result.clauses result.words }
{
    let pairs = (n * n - n) / 2;
    Count {
        clauses: 1 + pairs,
        words: n + 1 + pairs * 3,
    }
}

// The groups of a state block.
pub fn groups_count(l: &Layout) -> Count
    ensures { (o : ℕ) → Counted (each l.now.table.groups (group_piece l.now.table o)) result.clauses result.words }
{
    Count::sum(
        l.table.groups,
        |g| group_count(l.table.group(g).size as usize),
    )
}
