// The calls of the library for C on two model texts, whose models are composed into one.
ghost use Rattle.std.specs.Prelude.{◌≡◌, length};
ghost use Rattle.model.specs.Automaton.{initial_state};
ghost use Rattle.model.specs.Refusal.{refusal};
ghost use Rattle.text.specs.Text.{read_report};
ghost use Rattle.walk.specs.StepCall.{step_report};
ghost use Rattle.walk.specs.Walker.{walk_report};
ghost use Rattle.encode.specs.EncodeCall.{encode_report, encode_left};
ghost use Rattle.decode.specs.DecodeCall.{decode_report, decode_left};
ghost use Rattle.counts.specs.CountsCall.{list_report};
ghost use Rattle.dimacs.specs.DimacsCall.{file_report, file_left};
ghost use Rattle.compose.specs.ComposeCall.{compose_report};
ghost use Rattle.compose.specs.Parts.{parts_report};
ghost use Rattle.emission.specs.EmitCall.{emit_report, emit_left};
ghost use Rattle.refute.specs.RefuteCall.{refute_report};
ghost use Rattle.sizing.specs.SizeCall.{refused_sizes, emitted_sizes, size_told};
ghost use Rattle.wirdoku.specs.TextCall.{answer_told, counted_sizes, shape_of, refused_shape, file_reply, refused_file, state_answer, zero_state, step_answer, refute_reply, refused_refute};
ghost use Rattle.wirdoku.specs.PairCall.{if_both, both_read, text_refused, both_told, pair_report, pair_composed, if_pair, pair_refusal, pair_told, pair_answer, parts_answer, refused_parts};

use crate::calls::{
    counted, decoded, encoded, filed, refused_file, refused_refute, refused_shape, refused_sizes,
    refuted, shape_of, state_answer, stepped, told, walked, zero_state,
};
use crate::{Answer, FileReply, RefuteReply, Shape, StateAnswer};
use compose::{ComposeRefusal, compose, part_steps};
use emission::emit;
use model::{Model, State};
use sizing::{SizeAnswer, emitted};
use text::{ReadRefusal, read_model};

// The number of the refusal, or 0; the text that is refused, 1 or 2, or 0; its line, or 0.
#[repr(C)]
#[derive(Clone, Copy)]
pub struct PairAnswer {
    pub number: u8,
    pub text: u8,
    pub line: usize,
}

// The number of the refusal, or 0, the line of the text, or 0, and the step byte of each part, or 255 where it stands still.
#[repr(C)]
#[derive(Clone, Copy)]
pub struct PartSteps {
    pub number: u8,
    pub line: usize,
    pub first: u8,
    pub second: u8,
}

// Why there is no composed model: a text is refused, or the two models can't be composed.
#[derive(Clone, Copy, Debug, PartialEq, Eq)]
enum PairRefusal {
    First(ReadRefusal),
    Second(ReadRefusal),
    NotComposed(ComposeRefusal),
}

impl PairRefusal {
    fn number(self) -> u8
        ensures { result ≡ (pair_refusal self).number }
    {
        match self {
            PairRefusal::First(refusal) | PairRefusal::Second(refusal) => refusal.number(),
            PairRefusal::NotComposed(refusal) => refusal.number(),
        }
    }

    // The text that is refused, 1 or 2, or 0.
    fn text(self) -> u8
        ensures { result ≡ (pair_refusal self).text }
    {
        match self {
            PairRefusal::First(_) => 1,
            PairRefusal::Second(_) => 2,
            PairRefusal::NotComposed(_) => 0,
        }
    }

    fn line(self) -> usize
        ensures { result ≡ (pair_refusal self).line }
    {
        match self {
            PairRefusal::First(refusal) | PairRefusal::Second(refusal) => refusal.line(),
            PairRefusal::NotComposed(_) => 0,
        }
    }
}

// The models of both texts: the first text, the second.
fn read_both(first: &[u8], second: &[u8]) -> Result<(Model, Model), PairRefusal>
    ensures { both_told result ≡ if_both (read_report first.now) (read_report second.now) both_read text_refused }
{
    let a = match read_model(first) {
        Ok(model) => model,
        Err(refusal) => return Err(PairRefusal::First(refusal)),
    };
    match read_model(second) {
        Ok(b) => Ok((a, b)),
        Err(refusal) => Err(PairRefusal::Second(refusal)),
    }
}

// Two models as one: 38.
fn composed(a: Model, b: Model) -> Result<Model, PairRefusal>
    ensures { pair_told result ≡ pair_composed (compose_report a b) }
{
    match compose(a, b) {
        Ok(model) => Ok(model),
        Err(refusal) => Err(PairRefusal::NotComposed(refusal)),
    }
}

// The composed model of both texts: the first text, the second, 38.
fn read_pair(first: &[u8], second: &[u8]) -> Result<Model, PairRefusal>
    ensures { pair_told result ≡ pair_report (read_report first.now) (read_report second.now) }
{
    match read_both(first, second) {
        Ok((a, b)) => composed(a, b),
        Err(refusal) => Err(refusal),
    }
}

// Reads both texts and composes their models: the first text, the second, 38.
pub fn wirdoku_pair_read(first: &[u8], second: &[u8]) -> PairAnswer
    ensures { result ≡ pair_answer (pair_report (read_report first.now) (read_report second.now)) }
{
    match read_pair(first, second) {
        Ok(_) => PairAnswer {
            number: 0,
            text: 0,
            line: 0,
        },
        Err(refusal) => PairAnswer {
            number: refusal.number(),
            text: refusal.text(),
            line: refusal.line(),
        },
    }
}

// What the composed model declares: both texts, 38.
pub fn wirdoku_pair_shape(first: &[u8], second: &[u8]) -> Shape
    ensures { result ≡ if_pair (pair_report (read_report first.now) (read_report second.now)) shape_of refused_shape }
{
    match read_pair(first, second) {
        Ok(model) => shape_of(model),
        Err(refusal) => refused_shape(refusal.number(), refusal.line()),
    }
}

// The counts of its list for a bound, by formula: both texts, 38, 21.
pub fn wirdoku_pair_counts(first: &[u8], second: &[u8], bound: usize) -> SizeAnswer
    ensures { size_told result ≡ if_pair (pair_report (read_report first.now) (read_report second.now)) (λ m. counted_sizes (list_report m bound)) refused_sizes }
{
    match read_pair(first, second) {
        Ok(model) => counted(model, bound),
        Err(refusal) => refused_sizes(refusal.number(), refusal.line()),
    }
}

// Writes its list for a bound: both texts, 38, 21, 22.
pub fn wirdoku_pair_emit(first: &[u8], second: &[u8], bound: usize, out: &mut [i32]) -> SizeAnswer
    ensures result_value { size_told result ≡ if_pair (pair_report (read_report first.now) (read_report second.now)) (λ m. emitted_sizes (emit_report m bound (length out.old))) refused_sizes }
    ensures out_after { out.new ≡ if_pair (pair_report (read_report first.now) (read_report second.now)) (λ m. emit_left m bound (length out.old) out.old) (λ n l. out.old) }
{
    match read_pair(first, second) {
        Ok(model) => emitted(emit(model, bound, out)),
        Err(refusal) => refused_sizes(refusal.number(), refusal.line()),
    }
}

// Writes the DIMACS file of its list for a bound: both texts, 38, 21, 32.
pub fn wirdoku_pair_dimacs(first: &[u8], second: &[u8], bound: usize, out: &mut [u8]) -> FileReply
    ensures value { result ≡ if_pair (pair_report (read_report first.now) (read_report second.now)) (λ m. file_reply (file_report m bound (length out.old))) refused_file }
    ensures out_after { out.new ≡ if_pair (pair_report (read_report first.now) (read_report second.now)) (λ m. file_left m bound out.old) (λ n l. out.old) }
{
    match read_pair(first, second) {
        Ok(model) => filed(model, bound, out),
        Err(refusal) => refused_file(refusal.number(), refusal.line()),
    }
}

// Its initial state, whether or not its invariant holds: both texts, 38, and then a state of zeros.
pub fn wirdoku_pair_initial(first: &[u8], second: &[u8]) -> StateAnswer
    ensures { result ≡ if_pair (pair_report (read_report first.now) (read_report second.now)) (λ m. state_answer 0 0 (initial_state m)) (λ n l. state_answer n l zero_state) }
{
    match read_pair(first, second) {
        Ok(model) => state_answer(0, 0, model.initial_state()),
        Err(refusal) => state_answer(refusal.number(), refusal.line(), zero_state()),
    }
}

// One step byte from a state of it: both texts, 38, 10, 27, 28, and then the given state.
pub fn wirdoku_pair_step(first: &[u8], second: &[u8], state: State, byte: u8) -> StateAnswer
    ensures { result ≡ if_pair (pair_report (read_report first.now) (read_report second.now)) (λ m. step_answer (step_report m state byte)) (λ n l. state_answer n l state) }
{
    match read_pair(first, second) {
        Ok(model) => stepped(model, state, byte),
        Err(refusal) => state_answer(refusal.number(), refusal.line(), state),
    }
}

// Walks a run of it: both texts, 38, 21, 29; per step 27, 28; 30.
pub fn wirdoku_pair_walk(first: &[u8], second: &[u8], run: &[u8]) -> Answer
    ensures { answer_told result ≡ if_pair (pair_report (read_report first.now) (read_report second.now)) (λ m. walk_report m run.now) refusal }
{
    match read_pair(first, second) {
        Ok(model) => walked(model, run),
        Err(refusal) => told(refusal.number(), refusal.line()),
    }
}

// Writes the run of an assignment: both texts, 38, 21, 23, 24, 25, 26.
pub fn wirdoku_pair_assignment_to_run(
    first: &[u8],
    second: &[u8],
    bound: usize,
    assignment: &[u8],
    run: &mut [u8],
) -> Answer
    ensures result_value { answer_told result ≡ if_pair (pair_report (read_report first.now) (read_report second.now)) (λ m. decode_report m bound assignment.now (length run.old)) refusal }
    ensures run_after { run.new ≡ if_pair (pair_report (read_report first.now) (read_report second.now)) (λ m. decode_left m bound assignment.now run.old) (λ n l. run.old) }
{
    match read_pair(first, second) {
        Ok(model) => decoded(model, bound, assignment, run),
        Err(refusal) => told(refusal.number(), refusal.line()),
    }
}

// Writes the assignment of a run of it: both texts, 38, 21 and the walker's rows, 31.
pub fn wirdoku_pair_run_to_assignment(
    first: &[u8],
    second: &[u8],
    run: &[u8],
    assignment: &mut [u8],
) -> Answer
    ensures result_value { answer_told result ≡ if_pair (pair_report (read_report first.now) (read_report second.now)) (λ m. encode_report m run.now (length assignment.old)) refusal }
    ensures assignment_after { assignment.new ≡ if_pair (pair_report (read_report first.now) (read_report second.now)) (λ m. encode_left m run.now assignment.old) (λ n l. assignment.old) }
{
    match read_pair(first, second) {
        Ok(model) => encoded(model, run, assignment),
        Err(refusal) => told(refusal.number(), refusal.line()),
    }
}

// Writes its list for a bound in front of the lemmas and follows the hints: both texts, 38, 21, 22.
pub fn wirdoku_pair_refute(
    first: &[u8],
    second: &[u8],
    bound: usize,
    words: &mut [i32],
    hints: &[u32],
) -> RefuteReply
    ensures value { result ≡ if_pair (pair_report (read_report first.now) (read_report second.now)) (λ m. refute_reply (refute_report m bound words.old hints.now)) refused_refute }
    ensures words_after { words.new ≡ if_pair (pair_report (read_report first.now) (read_report second.now)) (λ m. emit_left m bound (length words.old) words.old) (λ n l. words.old) }
{
    match read_pair(first, second) {
        Ok(model) => refuted(model, bound, words, hints),
        Err(refusal) => refused_refute(refusal.number(), refusal.line()),
    }
}

fn refused_parts(number: u8, line: usize) -> PartSteps
    ensures { result ≡ refused_parts number line }
{
    PartSteps {
        number,
        line,
        first: 0,
        second: 0,
    }
}

// What a step byte of the composed model is in each part, where both models are read: 38, 27, and then 0 and 0.
fn parts_of(a: Model, b: Model, byte: u8) -> PartSteps
    ensures { result ≡ parts_answer (parts_report a b byte) }
{
    match part_steps(a, b, byte) {
        Ok(steps) => PartSteps {
            number: 0,
            line: 0,
            first: steps.first,
            second: steps.second,
        },
        Err(refusal) => refused_parts(refusal.number(), 0),
    }
}

// What a step byte of the composed model is in each part: both texts, 38, 27, and then 0 and 0.
pub fn wirdoku_pair_parts(first: &[u8], second: &[u8], byte: u8) -> PartSteps
    ensures { result ≡ if_both (read_report first.now) (read_report second.now) (λ a b. parts_answer (parts_report a b byte)) (λ t. refused_parts) }
{
    match read_both(first, second) {
        Ok((a, b)) => parts_of(a, b, byte),
        Err(refusal) => refused_parts(refusal.number(), refusal.line()),
    }
}
