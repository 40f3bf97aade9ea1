// A refutation of the list for a bound: the list is written in front of the lemmas that the caller has put into the lent words.
#![tactic(auto)]

ghost use Rattle.std.specs.Prelude.{◌≡◌, length, Ok};
ghost use Rattle.emission.specs.EmitCall.{emit_left};
ghost use Rattle.refute.specs.RefuteCall.{refute_report, refute_told};

use emission::{EmitRefusal, emit};
use model::Model;
use refutation::refuted;

// What became of a refutation: whether the lemmas and the hints refute the list, and the words that the list takes: there the lemmas begin.
#[derive(Clone, Copy, Debug, PartialEq, Eq)]
pub struct Refutation {
    pub refuted: bool,
    pub words: usize,
}

impl Refutation {
    // 1 refuted, 2 not refuted.
    pub fn outcome(self) -> u8
        ensures { result ≡ (refute_told (Ok self)).outcome }
    {
        if self.refuted { 1 } else { 2 }
    }
}

// Writes the list for a bound in front of the lemmas and follows the hints: 20, 21, 22, and then the words are as they were.
pub fn refute(
    m: Model,
    bound: usize,
    words: &mut [i32],
    hints: &[u32],
) -> Result<Refutation, EmitRefusal>
    ensures result_value { refute_told result ≡ refute_report m bound words.old hints.now }
    ensures words_after { words.new ≡ emit_left m bound (length words.old) words.old }
{
    match emit(m, bound, words) {
        Ok(list) => Ok(Refutation {
            refuted: refuted(words, list.words, hints),
            words: list.words,
        }),
        Err(refusal) => Err(refusal),
    }
}
