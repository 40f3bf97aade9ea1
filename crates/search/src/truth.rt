// Which clauses an assignment makes true, and checks of a group's clauses and of a part of the list. A check of a piece counts on from `at`:
// it answers the count past the piece where all its clauses are true, and else the index of the first false one.
ghost use Rattle.std.specs.Prelude.{◌≡◌, List, [], ◌∷◌, ℕ, ◌+◌, ◌<◌, ◌≤◌, length};
ghost use Rattle.model.specs.Indexed.{each};
ghost use Rattle.list.specs.Clauses.{bare, negated, one, members, group_clauses};
ghost use Rattle.list.specs.Assignments.{bit, clause_true};
ghost use Rattle.search.specs.Checking.{Checked, counted};
ghost use Rattle.search.specs.Limits.{most_group_clauses, most_part_clauses, most_counted};
ghost use Rattle.parts.specs.Rules.{rule_clauses, value_clauses, part_clauses, Fits};

use model::Relation;
use new_values::shift;
use parts::{Part, Rule};

pub fn is_true(a: &[u8], i: usize) -> bool
    requires { i < length a.now }
    ensures { result ≡ bit a.now i }
{
    a[i] == 1
}

fn not_both(a: &[u8], x: usize, y: usize) -> bool
    requires { (x < length a.now) × (y < length a.now) }
    ensures { result ≡ clause_true a.now (negated x ∷ negated y ∷ []) }
{
    !is_true(a, x) || !is_true(a, y)
}

fn one_leads(a: &[u8], x: usize, z: usize) -> bool
    requires { (x < length a.now) × (z < length a.now) }
    ensures { result ≡ clause_true a.now (negated x ∷ bare z ∷ []) }
{
    !is_true(a, x) || is_true(a, z)
}

fn both_lead(a: &[u8], x: usize, y: usize, z: usize) -> bool
    requires { (x < length a.now) × (y < length a.now) × (z < length a.now) }
    ensures { result ≡ clause_true a.now (negated x ∷ negated y ∷ bare z ∷ []) }
{
    !is_true(a, x) || !is_true(a, y) || is_true(a, z)
}

// Whether some member of a group is true.
fn members_true(a: &[u8], b: usize, n: usize) -> bool
    requires { b + n ≤ length a.now }
    ensures { result ≡ clause_true a.now (members b n) }
{
    a[b..b + n].iter().any(|byte| *byte == 1)
}

// One clause has been looked at.
pub fn counted(ok: bool, at: usize) -> Result<usize, usize>
    requires { at < most_counted }
    ensures { result ≡ counted ok at }
{
    if ok { Ok(at + 1) } else { Err(at) }
}

// Checks the pairs of member `x` with the `n` members after it. All are true if the member is false.
fn check_row(a: &[u8], x: usize, n: usize, at: usize) -> Result<usize, usize>
    requires { (x + n < length a.now) × (n < 64) × (at + 64 ≤ most_counted) }
    ensures { Checked a.now (each n (λ d. one (negated x ∷ negated (x + 1 + d) ∷ []))) at 64 result }
{
    if !is_true(a, x) {
        return Ok(at + n);
    }
    let mut count = at;
    for d in 0..n {
        count = counted(not_both(a, x, x + 1 + d), count)?;
    }
    Ok(count)
}

// Checks a group's clauses.
pub fn check_group(a: &[u8], b: usize, n: usize, at: usize) -> Result<usize, usize>
    requires { (b + n ≤ length a.now) × (n ≤ 64) × (at + most_group_clauses ≤ most_counted) }
    ensures { Checked a.now (group_clauses b n) at most_group_clauses result }
{
    let mut count = counted(members_true(a, b, n), at)?;
    for i in 0..n {
        count = check_row(a, b + i, n - (i + 1), count)?;
    }
    Ok(count)
}

// Checks the clause that rules value `v` out if it fails the comparison.
fn check_excluded(
    a: &[u8],
    x: usize,
    y: usize,
    v: u8,
    relation: Relation,
    constant: u8,
    at: usize,
) -> Result<usize, usize>
    requires { (x < length a.now) × (y < length a.now) × (at < most_counted) }
    ensures { Checked a.now (rule_clauses x y 0 v (Rule.Exclude relation constant)) at 1 result }
{
    if relation.holds(v, constant) {
        return Ok(at);
    }
    counted(not_both(a, x, y), at)
}

// Checks the clause for value `v` under a rule that adds an offset.
fn check_shifted(
    a: &[u8],
    x: usize,
    y: usize,
    after: usize,
    v: u8,
    offset: i8,
    greatest: u8,
    at: usize,
) -> Result<usize, usize>
    requires { (x < length a.now) × (y < length a.now) × (after + greatest < length a.now) × (at < most_counted) }
    ensures { Checked a.now (rule_clauses x y after v (Rule.Shift offset greatest)) at 1 result }
{
    match shift(offset, greatest, v) {
        None => counted(not_both(a, x, y), at),
        Some(u) => counted(both_lead(a, x, y, after + u as usize), at),
    }
}

// Checks the clauses of a part for value `v`.
pub fn check_value(a: &[u8], x: usize, p: Part, v: usize, at: usize) -> Result<usize, usize>
    requires { (x < length a.now) × Fits p (length a.now) × (v < p.size) × (at < most_counted) }
    ensures { Checked a.now (value_clauses x p v) at 1 result }
{
    let y = p.before + v;
    match p.rule {
        Rule::Exclude { relation, constant } => {
            check_excluded(a, x, y, v as u8, relation, constant, at)
        }
        Rule::Keep => counted(both_lead(a, x, y, p.after + v), at),
        Rule::Rise { by, top } => {
            let u = (v + by as usize).min(top as usize);
            counted(both_lead(a, x, y, p.after + u), at)
        }
        Rule::Shift { offset, greatest } => {
            check_shifted(a, x, y, p.after, v as u8, offset, greatest, at)
        }
        Rule::Set(u) => counted(one_leads(a, x, p.after + u as usize), at),
        Rule::Forbid => counted(!is_true(a, x), at),
    }
}

// Checks the clauses of a part, value after value.
pub fn check_part(a: &[u8], x: usize, p: Part, at: usize) -> Result<usize, usize>
    requires { (x < length a.now) × Fits p (length a.now) × (at + most_part_clauses ≤ most_counted) }
    ensures { Checked a.now (part_clauses x p) at most_part_clauses result }
{
    let mut count = at;
    for v in 0..p.size {
        count = check_value(a, x, p, v, count)?;
    }
    Ok(count)
}
