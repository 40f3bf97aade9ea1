// The literals of a line.
ghost use Rattle.std.specs.Prelude.{◌≡◌, [], ◌∷◌, ◌+◌, ◌-◌, ◌*◌, List, ℕ};
ghost use Rattle.std.specs.Iterator.{YieldsFirst, item_count};
ghost use Rattle.text.specs.bytes.Bytes.{split_on};
ghost use Rattle.output.specs.Literals.{unsigned, is_positive, names_variable, are_literals, number_after};
ghost use Rattle.output.specs.Counting.{capped, words_left, literals_left};

use crate::bytes;
use crate::variables::Variables;

// A variable, counted from 1, or 0, and whether the literal is bare.
#[derive(Clone, Copy, Debug, PartialEq, Eq)]
pub struct Literal {
    pub variable: usize,
    pub bare: bool,
}

// The literals of words one space apart, their variables up to `most` and one.
#[derive(Drop)]
pub struct Literals<'a> {
    words: Option<&'a [u8]>,
    variables: Variables,
}

// What follows the minus, if there is one.
fn unsigned(w: &[u8]) -> &[u8]
    ensures { result.now ≡ unsigned w.now }
{
    w.strip_prefix(b"-").unwrap_or(w)
}

// Digits without a leading zero.
fn is_positive(d: &[u8]) -> bool
    ensures { result ≡ is_positive d.now }
{
    match d {
        [] => false,
        [first, ..] => *first != b'0' && d.iter().all(|b| b.is_ascii_digit()),
    }
}

fn names_variable(w: &[u8]) -> bool
    ensures { result ≡ names_variable w.now }
{
    is_positive(unsigned(w))
}

// The last word of a line: 0, or a literal other than 0.
fn is_last(w: &[u8]) -> bool
    ensures { result ≡ are_literals (w.now ∷ []) }
{
    w == b"0".as_slice() || names_variable(w)
}

// Whether the words, one space apart, are literals and 0 is only the last.
pub fn are_literals(s: &[u8]) -> bool
    ensures { result ≡ are_literals (split_on 32 s.now) }
{
    let mut rest = s;
    while let Some((word, after)) = bytes::split_once(rest, b' ') {
        if !names_variable(word) {
            return false;
        }
        rest = after;
    }
    is_last(rest)
}

// One digit more, up to `most` and one.
fn next_number(v: usize, b: u8, variables: Variables) -> usize
    ensures { result ≡ capped variables.most (v * 10 + (b - 48)) }
{
    if Variables::TENTH < v {
        return variables.most + 1;
    }
    let n = v * 10 + b.saturating_sub(b'0') as usize;
    n.min(variables.most + 1)
}

// The number that the bytes before the first space say, of any length, up to `most` and one, and the words that follow.
fn number(s: &[u8], variables: Variables) -> (usize, Option<&[u8]>)
    ensures { (w : List ℕ) × (split_on 32 s.now ≡ w ∷ words_left result.1) × (result.0 ≡ capped variables.most (number_after 0 w)) }
{
    let mut n = 0;
    for (i, b) in s.iter().enumerate() {
        if *b == b' ' {
            return (n, Some(&s[i + 1..]));
        }
        n = next_number(n, *b, variables);
    }
    (n, None)
}

impl<'a> Literals<'a> {
    // Those of a line, from its first word on.
    pub fn new(words: &'a [u8], variables: Variables) -> Literals<'a>
        ensures { (result.variables ≡ variables) × (words_left result.words ≡ split_on 32 words.now) }
    {
        Literals {
            words: Some(words),
            variables,
        }
    }
}

impl<'a> Iterator for Literals<'a> {
    type Item = Literal;

    ghost next_gives = { YieldsFirst literals_left };

    ghost remaining = { item_count literals_left };

    fn next(&mut self) -> Option<Literal> {
        let words = self.words?;
        let (variable, rest) = number(unsigned(words), self.variables);
        self.words = rest;
        Some(Literal {
            variable,
            bare: !words.starts_with(b"-"),
        })
    }
}
