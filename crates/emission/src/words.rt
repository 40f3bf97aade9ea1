// Words of literals, and a writer for each kind of clause. A variable is counted from 0, as in the list's definitions; variable `a` has the
// number a + 1. Here and in the other writers a variable is summed in 16 bits and widened for the next call; indexes of the buffer are not. Each
// writer stores its clauses from index `at` on and returns the index after them.
ghost use Rattle.std.specs.Prelude.{◌≡◌, List, [], ◌∷◌, ℕ, ◌+◌, ◌<◌, ◌≤◌};
ghost use Rattle.buffer.specs.Buffers.{Room, Wrote};
ghost use Rattle.list.specs.Clauses.{bare, negated, word, one, members, group_clauses};
ghost use Rattle.parts.specs.Numbering.{most_variables};
ghost use Rattle.emission.specs.Written.{RoomFor, WroteClauses};
ghost use Rattle.emission.specs.Pairs.{pairs_of};

// The word of a bare variable.
fn positive(a: usize) -> i32
    requires { a < most_variables }
    ensures { result ≡ word (bare a) }
{
    (a as u16 + 1) as i32
}

// The word of a negated variable.
fn negative(a: usize) -> i32
    requires { a < most_variables }
    ensures { result ≡ word (negated a) }
{
    -((a as u16 + 1) as i32)
}

// One word.
fn put_word(word: i32, out: &mut [i32], at: usize) -> usize
    requires { Room (word ∷ []) out.old at }
    ensures { Wrote (word ∷ []) out.old out.new at result }
{
    out[at] = word;
    at + 1
}

// The clause `a`.
pub fn put_unit(a: usize, out: &mut [i32], at: usize) -> usize
    requires { (a < most_variables) × RoomFor (one (bare a ∷ [])) out.old at }
    ensures { WroteClauses (one (bare a ∷ [])) out.old out.new at result }
{
    let end = put_word(positive(a), out, at);
    put_word(0, out, end)
}

// The clause not `a`.
pub fn put_negated_unit(a: usize, out: &mut [i32], at: usize) -> usize
    requires { (a < most_variables) × RoomFor (one (negated a ∷ [])) out.old at }
    ensures { WroteClauses (one (negated a ∷ [])) out.old out.new at result }
{
    let last = put_word(negative(a), out, at);
    put_word(0, out, last)
}

// The clause not `a`, `b`.
pub fn put_implication(a: usize, b: usize, out: &mut [i32], at: usize) -> usize
    requires { (a < most_variables) × (b < most_variables) × RoomFor (one (negated a ∷ bare b ∷ [])) out.old at }
    ensures { WroteClauses (one (negated a ∷ bare b ∷ [])) out.old out.new at result }
{
    let rest = put_word(negative(a), out, at);
    put_unit(b, out, rest)
}

// The clause not `a`, not `b`.
pub fn put_exclusion(a: usize, b: usize, out: &mut [i32], at: usize) -> usize
    requires { (a < most_variables) × (b < most_variables) × RoomFor (one (negated a ∷ negated b ∷ [])) out.old at }
    ensures { WroteClauses (one (negated a ∷ negated b ∷ [])) out.old out.new at result }
{
    let second = put_word(negative(a), out, at);
    put_negated_unit(b, out, second)
}

// The clause not `a`, not `b`, `c`.
pub fn put_joint_implication(a: usize, b: usize, c: usize, out: &mut [i32], at: usize) -> usize
    requires { (a < most_variables) × (b < most_variables) × (c < most_variables) × RoomFor (one (negated a ∷ negated b ∷ bare c ∷ [])) out.old at }
    ensures { WroteClauses (one (negated a ∷ negated b ∷ bare c ∷ [])) out.old out.new at result }
{
    let rest = put_word(negative(a), out, at);
    put_implication(b, c, out, rest)
}

// The clause of all members of the group of `n` members whose variables begin at `b`.
fn put_members(b: usize, n: usize, out: &mut [i32], at: usize) -> usize
    requires { (b + n ≤ most_variables) × RoomFor (one (members b n)) out.old at }
    ensures { WroteClauses (one (members b n)) out.old out.new at result }
{
    let last = at + n;
    for (v, member) in out[at..last].iter_mut().enumerate() {
        *member = positive((b as u16 + v as u16) as usize);
    }
    out[last] = 0;
    last + 1
}

// The pairs of member `i` and each member after it.
fn put_pairs_of(b: usize, n: usize, i: usize, out: &mut [i32], at: usize) -> usize
    requires { (b + n ≤ most_variables) × (i < n) × RoomFor (pairs_of b n i) out.old at }
    ensures { WroteClauses (pairs_of b n i) out.old out.new at result }
{
    let mut end = at;
    for j in 0..n - (i + 1) {
        let x = b as u16 + i as u16;
        let y = x + 1 + j as u16;
        end = put_exclusion(x as usize, y as usize, out, end);
    }
    end
}

// The clauses of a group: all members, then each pair, both negated.
pub fn put_group(b: usize, n: usize, out: &mut [i32], at: usize) -> usize
    requires { (b + n ≤ most_variables) × RoomFor (group_clauses b n) out.old at }
    ensures { WroteClauses (group_clauses b n) out.old out.new at result }
{
    let mut end = put_members(b, n, out, at);
    for i in 0..n {
        end = put_pairs_of(b, n, i, out, end);
    }
    end
}
