// Refutations with hints. The words of a list of clauses are followed by the words of lemmas, and a hint is the place in the words where a
// clause begins. A literal is a number, its code: 2 v for the variable v, 2 v + 1 for its negation.
#![tactic(auto)]

ghost use Rattle.std.specs.Prelude.{◌≡◌, List, [], ◌∷◌, ℕ, ◌+◌, ◌<◌, ◌≤◌, length, drop, get_or, pos};
ghost use Rattle.refutation.specs.Codes.{code_of, opposite, begins, all_within};
ghost use Rattle.refutation.specs.Refutation.{left, span, literals, follows, refutes};
ghost use Rattle.refutation.specs.Marks.{marked, Shows, Most, Below};
ghost use Rattle.refutation.specs.Left.{left_number, LiteralBelow};

// A mark for each code up to the negation of variable 21,776, the greatest of any list.
const MARKS: usize = 43554;

// What a clause leaves without the literals that are taken to be false: nothing, one literal, or more.
#[derive(Clone, Copy, Debug, PartialEq, Eq)]
enum Left {
    Nothing,
    One(usize),
    Several,
}

// The code of a word; 0 closes a clause.
fn code(word: i32) -> usize
    ensures { result ≡ code_of word }
{
    word.unsigned_abs() as usize * 2 + (word < 0) as usize
}

// The code of the opposite literal.
#[tactic(auto, unfolding(crate::specs::Codes::opposite))]
fn opposite(c: usize) -> usize
    requires { c + 1 < 18446744073709551616 }
    ensures { result ≡ opposite c }
{
    if c % 2 == 0 { c + 1 } else { c - 1 }
}

// Whether a clause begins at `h`, before `at`.
#[tactic(auto, unfolding(crate::specs::Codes::begins))]
fn begins(words: &[i32], at: usize, h: usize) -> bool
    requires { at ≤ length words.now }
    ensures { result ≡ begins words.now at h }
{
    h < at && (h == 0 || code(words[h - 1]) == 0)
}

// Whether every word has a mark.
fn all_within(words: &[i32]) -> bool
    ensures { result ≡ all_within words.now }
{
    words.iter().all(|&word| code(word) < MARKS)
}

// Words that all have a mark, and the marks: the literals that are taken to be false bear the stamp, and no mark is above it.
#[derive(Drop)]
struct Marks<'a> {
    words: &'a [i32],
    table: [u8; MARKS],
    stamp: u8,
    ghost within: { Below words.now 43554 },
    ghost most: { Most table stamp },
}

impl Marks<'_> {
    // What is left of the clause at `from`.
    fn left(&self, from: usize) -> Left
        requires { from ≤ length self.now.words.now }
        ensures number { left_number result ≡ left (marked self.now.table self.now.stamp) 0 (drop from self.now.words.now) }
        ensures below { LiteralBelow result 43554 }
    {
        let mut only = Left::Nothing;
        for &word in &self.words[from..] {
            let literal = code(word);
            if literal == 0 {
                return only;
            }
            if self.table[literal] != self.stamp {
                if only != Left::Nothing && only != Left::One(literal) {
                    return Left::Several;
                }
                only = Left::One(literal);
            }
        }
        Left::Several
    }

    // Takes no literal to be false: a stamp that no mark bears, which is the next one, and after the last one the first, with the table cleared.
    fn forget(&mut self)
        ensures same { self.new.words.now ≡ self.old.words.now }
        ensures shows { Shows self.new.table self.new.stamp [] }
    {
        if self.stamp < 255 {
            self.stamp += 1;
        } else {
            self.table.fill(0);
            self.stamp = 1;
        }
    }

    // Takes the literals of the clause at `from` to be false, and no others; the place of the word that closes it.
    fn take(&mut self, from: usize) -> usize
        requires { from ≤ length self.old.words.now }
        ensures same { self.new.words.now ≡ self.old.words.now }
        ensures ends { result ≡ from + span (drop from self.old.words.now) }
        ensures shows { Shows self.new.table self.new.stamp (literals (drop from self.old.words.now) []) }
    {
        let words = self.words;
        self.forget();
        for i in from..words.len() {
            let literal = code(words[i]);
            if literal == 0 {
                return i;
            }
            self.table[literal] = self.stamp;
        }
        words.len()
    }

    // Follows the hints for the lemmas from `n` on.
    fn follow(&mut self, n: usize, hints: &[u32]) -> bool
        requires { n < length self.old.words.now }
        ensures { result ≡ follows self.old.words.now n (literals (drop n self.old.words.now) []) hints.now }
    {
        let words = self.words;
        let mut at = n;
        let mut end = self.take(at);
        for &hint in hints {
            let h = hint as usize;
            if !begins(words, at, h) {
                return false;
            }
            match self.left(h) {
                Left::Several => return false,
                Left::One(literal) => self.table[opposite(literal)] = self.stamp,
                Left::Nothing if end == at => return true,
                Left::Nothing => {
                    at = end + 1;
                    if at >= words.len() {
                        return false;
                    }
                    end = self.take(at);
                }
            }
        }
        false
    }
}

// Whether the words from `n` on, as lemmas, and the hints refute the clauses before. The marks are a local table.
pub fn refuted(words: &[i32], n: usize, hints: &[u32]) -> bool
    ensures { result ≡ refutes words.now n hints.now }
{
    if n >= words.len() || !all_within(words) {
        return false;
    }
    let mut marks = Marks {
        words,
        table: [0; MARKS],
        stamp: 0,
    };
    marks.follow(n, hints)
}
