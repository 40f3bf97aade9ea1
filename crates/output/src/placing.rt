// Literals placed into a window of bytes: to find a variable that is named twice, and to write the assignment.
ghost use Rattle.std.specs.Prelude.{◌≡◌, length, take, replicate};
ghost use mathlib.Core.List.{[], foldl};
ghost use Rattle.output.specs.Counting.{literal_up_to};
ghost use Rattle.output.specs.Placing.{line_literals, literals_of, marking, placed, fresh_after};

use crate::bytes;
use crate::literals::{Literal, Literals};
use crate::variables::Variables;

// How many literals were seen, and how many are to be seen.
#[derive(Clone, Copy, Debug, PartialEq, Eq)]
pub struct Placing {
    pub seen: usize,
    pub bound: usize,
}

impl Placing {
    // How many variables a window has. Every list of a model has fewer.
    pub const WINDOW: usize = 32768;

    // A byte of the window: the variable is not named yet.
    pub const UNNAMED: u8 = 2;

    // One literal more.
    #[tactic(auto, unfolding(crate::specs::Placing::placed))]
    fn place(self, l: Literal, low: usize, marks: &mut [u8]) -> Placing
        ensures { marking result marks.new ≡ placed low (marking self marks.old) l }
    {
        if self.bound <= self.seen {
            return self;
        }
        if let Some(i) = l.variable.checked_sub(low)
            && i < marks.len()
        {
            if marks[i] != Placing::UNNAMED {
                return Placing {
                    bound: self.seen,
                    ..self
                };
            }
            marks[i] = l.bare as u8;
        }
        Placing {
            seen: self.seen + 1,
            ..self
        }
    }
}

// The words of a line without its LF, if it begins with v and a space. Its form was judged by the first pass.
fn place_line(
    first: Placing,
    l: &[u8],
    variables: Variables,
    low: usize,
    marks: &mut [u8],
) -> Placing
    ensures { marking result marks.new ≡ foldl (placed low) (marking first marks.old) (line_literals (literal_up_to variables.most) l.now) }
{
    let Some(words) = l.strip_prefix(b"v ") else {
        return first;
    };
    let mut p = first;
    for literal in Literals::new(words, variables) {
        p = p.place(literal, low, marks);
    }
    p
}

// The first `bound` literals of the text, or as many as there are before one that names a variable of the window again: their number.
fn place_literals(
    text: &[u8],
    bound: usize,
    variables: Variables,
    low: usize,
    marks: &mut [u8],
) -> Placing
    ensures { marking result marks.new ≡ foldl (placed low) (marking (record { seen = 0; bound = bound }) marks.old) (literals_of (literal_up_to variables.most) text.now) }
{
    let mut p = Placing { seen: 0, bound };
    let mut rest = text;
    while let Some((line, after)) = bytes::split_once(rest, b'\n') {
        p = place_line(p, line, variables, low, marks);
        if p.bound <= p.seen {
            return p;
        }
        rest = after;
    }
    p
}

// How many of the first `named` literals come before the first that names a variable again. Variables are looked at window by window.
pub fn fresh(text: &[u8], named: usize, variables: Variables) -> usize
    ensures { result ≡ fresh_after [] (take named (literals_of (literal_up_to variables.most) text.now)) }
{
    let mut bound = named;
    let mut low = 0;
    while low <= variables.most + 1 {
        let mut marks = [Placing::UNNAMED; Placing::WINDOW];
        bound = place_literals(text, bound, variables, low, &mut marks).seen;
        low += Placing::WINDOW;
    }
    bound
}

// The assignment of a text that was accepted: each literal sets the byte of its variable.
pub fn write(text: &[u8], out: &mut [u8])
    ensures { out.new ≡ (foldl (placed 1) (marking (record { seen = 0; bound = length out.old }) (replicate (length out.old) 2)) (literals_of (literal_up_to (length out.old)) text.now)).marks }
{
    out.fill(Placing::UNNAMED);
    let variables = Variables { most: out.len() };
    place_literals(text, variables.most, variables, 1, out);
}
