// The counts of the clause list, by formula: start, the bound times one step, end.
#![tactic(auto)]

ghost use Rattle.std.specs.Prelude.{◌≡◌, List, ◌++◌, ℕ, ◌+◌, ◌*◌, ◌^◌, ◌≤◌, ◌<◌};
ghost use Rattle.model.specs.Indexed.{each};
ghost use Rattle.list.specs.Items.{invariant_items, state_items, choice_items, delays_items, edges_items};
ghost use Rattle.list.specs.Clauses.{one_hot_width, Clause, clauses_of};
ghost use Rattle.counts.specs.Counted.{Counted, most_piece};
ghost use Rattle.counts.specs.KnownCounts.{KnownCounts};
ghost use Rattle.counts.specs.CountsCall.{list_told, list_report};

use edge::{edge_count, invariant_count};
use form::{ListRefusal, check_bound};
use group::{group_count, groups_count};
use model::Model;
use parts::layout::Layout;
use std::ops::Add;

mod edge;
mod group;
mod part;
pub mod tables;

// How many clauses and words a piece of the list has.
#[derive(Clone, Copy, Debug, PartialEq, Eq)]
pub struct Count {
    pub clauses: usize,
    pub words: usize,
}

#[derive(Clone, Copy, Debug, PartialEq, Eq)]
pub struct ListCounts {
    pub variables: usize,
    pub clauses: usize,
    pub words: usize,
}

impl Add for Count {
    type Output = Count;

    ghost can_add = { λ a b. (a.clauses + b.clauses < 2 ^ 64) × (a.words + b.words < 2 ^ 64) };

    ghost add_gives = { λ a b r. (r.clauses ≡ a.clauses + b.clauses) × (r.words ≡ a.words + b.words) };

    fn add(self, rhs: Count) -> Count {
        Count {
            clauses: self.clauses + rhs.clauses,
            words: self.words + rhs.words,
        }
    }
}

impl Count {
    // Of `n` pieces that have this each.
    fn times(self, n: usize) -> Count
        requires { (n * self.clauses < 2 ^ 64) × (n * self.words < 2 ^ 64) }
        ensures { (result.clauses ≡ n * self.clauses) × (result.words ≡ n * self.words) }
    {
        Count {
            clauses: n * self.clauses,
            words: n * self.words,
        }
    }

    // Of `n` pieces, one after the other; `piece` counts one.
    fn sum<F: Fn(usize) -> Count>(n: usize, piece: F) -> Count
        requires few { n ≤ 32 }
        requires callable { (i : ℕ) → i < n → F.pre piece i }
        requires small { (i : ℕ) (c : Count) → i < n → F.post piece i c → (c.clauses ≤ most_piece) × (c.words ≤ most_piece) }
        ensures { (f : ℕ → List Clause) → ((i : ℕ) (c : Count) → i < n → F.post piece i c → Counted (f i) c.clauses c.words)
            → Counted (each n f) result.clauses result.words }
    {
        let mut sum = Count {
            clauses: 0,
            words: 0,
        };
        for i in 0..n {
            sum = sum + piece(i);
        }
        sum
    }
}

// For each location, the values that fail its invariant.
fn invariants_count(l: &Layout) -> Count
    ensures { (o : ℕ) → Counted (clauses_of (invariant_items one_hot_width l.now.model o)) result.clauses result.words }
{
    Count::sum(l.model.locations as usize, |i| invariant_count(l, i))
}

// The state clauses of one state.
fn state_count(l: &Layout) -> Count
    ensures { (o : ℕ) → Counted (clauses_of (state_items one_hot_width l.now.model o)) result.clauses result.words }
{
    groups_count(l) + invariants_count(l)
}

// The edges of one step.
fn edges_count(l: &Layout) -> Count
    ensures { (o : ℕ) → Counted (clauses_of (edges_items one_hot_width l.now.model o)) result.clauses result.words }
{
    Count::sum(l.model.used as usize, |i| edge_count(l, i))
}

// One step less its state clauses: the choice, each delay (a clause of three literals for each member of a state), each edge.
fn moves_count(l: &Layout) -> Count
    ensures { (o : ℕ) → Counted (clauses_of (choice_items one_hot_width l.now.model o) ++ clauses_of (delays_items one_hot_width l.now.model o)
        ++ clauses_of (edges_items one_hot_width l.now.model o)) result.clauses result.words }
{
    let delays = (l.table.top as usize + 1) * l.table.state;
    let waits = Count {
        clauses: delays,
        words: delays * 4,
    };
    group_count(l.table.choices) + waits + edges_count(l)
}

// The counts of the list for a well-formed record and a bound.
pub fn list_counts(l: &Layout, bound: usize) -> ListCounts
    requires { bound ≤ 64 }
    ensures { KnownCounts l.now.model bound result }
{
    let state = state_count(l);
    let step = moves_count(l) + state;
    let initial = Count {
        clauses: l.table.groups,
        words: l.table.groups * 2,
    };
    let target = Count {
        clauses: 1,
        words: 2,
    };
    let all = state + initial + step.times(bound) + target;
    ListCounts {
        variables: l.totals.state + bound * (l.totals.state + l.totals.choices),
        clauses: all.clauses,
        words: all.words,
    }
}

// The counts of the list: 20, 21.
pub fn counts_of(m: Model, bound: usize) -> Result<ListCounts, ListRefusal>
    ensures { list_told result ≡ list_report m bound }
{
    check_bound(m, bound)?;
    Ok(list_counts(&Layout::new(m), bound))
}
