// One pass over a text: the forms and places of its lines, the ranges of its literals, and where the reading ends.
ghost use Rattle.std.specs.Prelude.{◌≡◌, ◌≤◌, ◌<◌, length, is_some};
ghost use mathlib.Core.List.{foldl};
ghost use Rattle.output.specs.Tokens.{line_tokens, tokens_of};
ghost use Rattle.output.specs.Counting.{literal_up_to, no_reading, count_line, count_literal, count};

use crate::lines::{LineForm, Stage};
use crate::literals::{Literal, Literals};
use crate::variables::Variables;
use crate::{bytes, lines};

// Why a text is refused.
#[derive(Clone, Copy, Debug, PartialEq, Eq)]
pub enum Fault {
    OutOfFormOrPlace,
    AboveOrNamedBefore,
    Incomplete,
}

// What was read so far: the first fault, the line that was judged last, what may come next, how many literals named a variable.
#[derive(Clone, Copy, Debug, PartialEq, Eq)]
pub struct Reading {
    pub fault: Option<Fault>,
    pub line: usize,
    pub stage: Stage,
    pub named: usize,
}

impl Reading {
    // Whether a fault has ended it.
    fn has_ended(self) -> bool
        ensures { result ≡ is_some self.fault }
    {
        self.fault.is_some()
    }

    // The next line.
    #[tactic(auto, unfolding(crate::specs::Counting::count_line))]
    fn judge_line(self, form: Option<LineForm>) -> Reading
        requires { self.line < 9223372036854775808 }
        ensures { result ≡ count_line form self }
    {
        if self.has_ended() {
            return self;
        }
        let next = Reading {
            line: self.line + 1,
            ..self
        };
        match self.stage.after(form) {
            Some(stage) => Reading { stage, ..next },
            None => Reading {
                fault: Some(Fault::OutOfFormOrPlace),
                ..next
            },
        }
    }

    // The next literal: a variable above `most` is refused, and any after `limit` of them; 0 closes after `most`.
    #[tactic(auto, unfolding(crate::specs::Counting::count_literal))]
    fn judge_literal(self, l: Literal, most: usize, limit: usize) -> Reading
        ensures { result ≡ count_literal most limit l self }
    {
        if self.has_ended() {
            return self;
        }
        if l.variable == 0 {
            if self.named == most {
                return Reading {
                    stage: Stage::Closed,
                    ..self
                };
            }
            return Reading {
                fault: Some(Fault::Incomplete),
                ..self
            };
        }
        if most < l.variable || limit <= self.named {
            return Reading {
                fault: Some(Fault::AboveOrNamedBefore),
                ..self
            };
        }
        Reading {
            named: self.named + 1,
            ..self
        }
    }

    // A line without its LF, and then its literals.
    fn judge_whole_line(self, l: &[u8], variables: Variables, limit: usize) -> Reading
        requires { self.line < 9223372036854775808 }
        ensures { result ≡ foldl (count variables.most limit) self (line_tokens (literal_up_to variables.most) l.now) }
    {
        let form = lines::form(l);
        let r = self.judge_line(form);
        match form {
            Some(LineForm::Values) => Literals::new(&l[2..], variables).fold(r, |r, literal| {
                r.judge_literal(literal, variables.most, limit)
            }),
            _ => r,
        }
    }
}

// The whole text, up to the first fault.
pub fn read_through(text: &[u8], variables: Variables, limit: usize) -> Reading
    ensures { (result ≡ foldl (count variables.most limit) no_reading (tokens_of (literal_up_to variables.most) text.now)) × (result.line ≤ length text.now) }
{
    let mut r = Reading {
        fault: None,
        line: 0,
        stage: Stage::BeforeStatus,
        named: 0,
    };
    let mut rest = text;
    while let Some((line, after)) = bytes::split_once(rest, b'\n') {
        r = r.judge_whole_line(line, variables, limit);
        if r.has_ended() {
            return r;
        }
        rest = after;
    }
    if rest.is_empty() {
        r
    } else {
        r.judge_line(None)
    }
}
