// The calls of the library for C: a model text, numbers and lent slices. include/wirdoku.h declares them, and the crate wirdoku_c exports
// each under its name.
#![tactic(auto)]

ghost use Rattle.std.specs.Prelude.{◌≡◌, length};
ghost use Rattle.model.specs.Automaton.{initial_state};
ghost use Rattle.model.specs.Refusal.{refusal};
ghost use Rattle.text.specs.Text.{read_report, if_read};
ghost use Rattle.walk.specs.StepCall.{step_report};
ghost use Rattle.walk.specs.Walker.{walk_report};
ghost use Rattle.encode.specs.EncodeCall.{encode_report, encode_left};
ghost use Rattle.decode.specs.DecodeCall.{decode_report, decode_left};
ghost use Rattle.counts.specs.CountsCall.{list_report, list_told};
ghost use Rattle.dimacs.specs.DimacsCall.{file_report, file_left};
ghost use Rattle.emission.specs.EmitCall.{emit_left};
ghost use Rattle.refute.specs.RefuteCall.{refute_report};
ghost use Rattle.output.specs.OutputCall.{output_report, output_left};
ghost use Rattle.sizing.specs.SizeCall.{refused_sizes, text_sizes, text_left, size_report, size_left, size_told};
ghost use Rattle.wirdoku.specs.TextCall.{answer_told, text_report, counted_sizes, shape_of, refused_shape, file_reply, refused_file, state_answer, zero_state, step_answer, output_in, refute_reply, refused_refute};

use calls::{
    counted, decoded, encoded, filed, refused_file, refused_refute, refused_shape, refused_sizes,
    refuted, shape_of, state_answer, stepped, told, walked, zero_state,
};
use model::State;
use output::output_to_assignment;
pub use pairs::{
    PairAnswer, PartSteps, wirdoku_pair_assignment_to_run, wirdoku_pair_counts,
    wirdoku_pair_dimacs, wirdoku_pair_emit, wirdoku_pair_initial, wirdoku_pair_parts,
    wirdoku_pair_read, wirdoku_pair_refute, wirdoku_pair_run_to_assignment, wirdoku_pair_shape,
    wirdoku_pair_step, wirdoku_pair_walk,
};
use sizing::{SizeAnswer, sizes_of, text_sizes};
use text::read_model;

mod calls;
mod pairs;

// The number of the refusal, or 0, and its place.
#[repr(C)]
#[derive(Clone, Copy)]
pub struct Answer {
    pub number: u8,
    pub place: usize,
}

// What a model declares, its ceiling, and the lengths of a state block and of a choice block.
#[repr(C)]
#[derive(Clone, Copy)]
pub struct Shape {
    pub number: u8,
    pub line: usize,
    pub locations: u8,
    pub initial: u8,
    pub target: u8,
    pub clocks: u8,
    pub counters: u8,
    pub edges: u8,
    pub ceiling: usize,
    pub state: usize,
    pub choices: usize,
}

// The number of the refusal, or 0, the line of the text, or 0, and the file's bytes.
#[repr(C)]
#[derive(Clone, Copy)]
pub struct FileReply {
    pub number: u8,
    pub line: usize,
    pub bytes: usize,
}

// The number of the refusal, or 0, the line of the solver's output, or 0, and the outcome: 10, 20, or 0 of a refused text.
#[repr(C)]
#[derive(Clone, Copy)]
pub struct OutputReply {
    pub number: u8,
    pub line: usize,
    pub outcome: u8,
}

// The number of the refusal, or 0, the line of the text, or 0, the words of the list, and the outcome: 1 refuted, 2 not refuted, or 0.
#[repr(C)]
#[derive(Clone, Copy)]
pub struct RefuteReply {
    pub number: u8,
    pub line: usize,
    pub words: usize,
    pub outcome: u8,
}

// The number of the refusal, or 0, the line of the text, or 0, and a state.
#[repr(C)]
#[derive(Clone, Copy)]
pub struct StateAnswer {
    pub number: u8,
    pub line: usize,
    pub state: State,
}

// Reads the text: 1 to 8.
pub fn wirdoku_read(text: &[u8]) -> Answer
    ensures { answer_told result ≡ text_report (read_report text.now) }
{
    match read_model(text) {
        Ok(_) => told(0, 0),
        Err(refusal) => told(refusal.number(), refusal.line()),
    }
}

// What the model declares: the text.
pub fn wirdoku_shape(text: &[u8]) -> Shape
    ensures { result ≡ if_read (read_report text.now) shape_of refused_shape }
{
    match read_model(text) {
        Ok(model) => shape_of(model),
        Err(refusal) => refused_shape(refusal.number(), refusal.line()),
    }
}

// The counts of the list for a bound, by formula: the text, 21.
pub fn wirdoku_counts(text: &[u8], bound: usize) -> SizeAnswer
    ensures { size_told result ≡ if_read (read_report text.now) (λ m. counted_sizes (list_report m bound)) refused_sizes }
{
    match read_model(text) {
        Ok(model) => counted(model, bound),
        Err(refusal) => refused_sizes(refusal.number(), refusal.line()),
    }
}

// Writes the list for a bound: the text, 21, 22.
pub fn wirdoku_emit(text: &[u8], bound: usize, out: &mut [i32]) -> SizeAnswer
    ensures result_value { size_told result ≡ text_sizes (read_report text.now) bound (length out.old) }
    ensures out_after { out.new ≡ text_left (read_report text.now) bound out.old }
{
    text_sizes(text, bound, out)
}

// Writes the DIMACS file of the list for a bound: the text, 21, 32.
pub fn wirdoku_dimacs(text: &[u8], bound: usize, out: &mut [u8]) -> FileReply
    ensures value { result ≡ if_read (read_report text.now) (λ m. file_reply (file_report m bound (length out.old))) refused_file }
    ensures out_after { out.new ≡ if_read (read_report text.now) (λ m. file_left m bound out.old) (λ n l. out.old) }
{
    match read_model(text) {
        Ok(model) => filed(model, bound, out),
        Err(refusal) => refused_file(refusal.number(), refusal.line()),
    }
}

// The size program's question, on a bound line and a model text: 9, the text, 21, 22.
pub fn wirdoku_size(input: &[u8], out: &mut [i32]) -> SizeAnswer
    ensures result_value { size_told result ≡ size_report input.now (length out.old) }
    ensures out_after { out.new ≡ size_left input.now out.old }
{
    sizes_of(input, out)
}

// The initial state, whether or not its invariant holds: the text, and then a state of zeros.
pub fn wirdoku_initial(text: &[u8]) -> StateAnswer
    ensures { result ≡ if_read (read_report text.now) (λ m. state_answer 0 0 (initial_state m)) (λ n l. state_answer n l zero_state) }
{
    match read_model(text) {
        Ok(model) => state_answer(0, 0, model.initial_state()),
        Err(refusal) => state_answer(refusal.number(), refusal.line(), zero_state()),
    }
}

// One step byte from a state: the text, 10, 27, 28, and then the given state.
pub fn wirdoku_step(text: &[u8], state: State, byte: u8) -> StateAnswer
    ensures { result ≡ if_read (read_report text.now) (λ m. step_answer (step_report m state byte)) (λ n l. state_answer n l state) }
{
    match read_model(text) {
        Ok(model) => stepped(model, state, byte),
        Err(refusal) => state_answer(refusal.number(), refusal.line(), state),
    }
}

// Walks a run: the text, 21, 29; per step 27, 28; 30.
pub fn wirdoku_walk(text: &[u8], run: &[u8]) -> Answer
    ensures { answer_told result ≡ if_read (read_report text.now) (λ m. walk_report m run.now) refusal }
{
    match read_model(text) {
        Ok(model) => walked(model, run),
        Err(refusal) => told(refusal.number(), refusal.line()),
    }
}

// Writes the run of an assignment: the text, 21, 23, 24, 25, 26.
pub fn wirdoku_assignment_to_run(
    text: &[u8],
    bound: usize,
    assignment: &[u8],
    run: &mut [u8],
) -> Answer
    ensures result_value { answer_told result ≡ if_read (read_report text.now) (λ m. decode_report m bound assignment.now (length run.old)) refusal }
    ensures run_after { run.new ≡ if_read (read_report text.now) (λ m. decode_left m bound assignment.now run.old) (λ n l. run.old) }
{
    match read_model(text) {
        Ok(model) => decoded(model, bound, assignment, run),
        Err(refusal) => told(refusal.number(), refusal.line()),
    }
}

// Writes the assignment of a run: the text, 21 and the walker's rows, 31.
pub fn wirdoku_run_to_assignment(text: &[u8], run: &[u8], assignment: &mut [u8]) -> Answer
    ensures result_value { answer_told result ≡ if_read (read_report text.now) (λ m. encode_report m run.now (length assignment.old)) refusal }
    ensures assignment_after { assignment.new ≡ if_read (read_report text.now) (λ m. encode_left m run.now assignment.old) (λ n l. assignment.old) }
{
    match read_model(text) {
        Ok(model) => encoded(model, run, assignment),
        Err(refusal) => told(refusal.number(), refusal.line()),
    }
}

// Reads a solver's output and writes the assignment that it names: 33, 34, 35.
pub fn wirdoku_output_to_assignment(output: &[u8], assignment: &mut [u8]) -> OutputReply
    ensures result_value { output_in result ≡ output_report output.now (length assignment.old) }
    ensures assignment_after { assignment.new ≡ output_left output.now assignment.old }
{
    match output_to_assignment(output, assignment) {
        Ok(outcome) => OutputReply {
            number: 0,
            line: 0,
            outcome: outcome as u8,
        },
        Err(refusal) => OutputReply {
            number: refusal.number(),
            line: refusal.line(),
            outcome: 0,
        },
    }
}

// Writes the list for a bound in front of the lemmas and follows the hints: the text, 21, 22.
pub fn wirdoku_refute(text: &[u8], bound: usize, words: &mut [i32], hints: &[u32]) -> RefuteReply
    ensures value { result ≡ if_read (read_report text.now) (λ m. refute_reply (refute_report m bound words.old hints.now)) refused_refute }
    ensures words_after { words.new ≡ if_read (read_report text.now) (λ m. emit_left m bound (length words.old) words.old) (λ n l. words.old) }
{
    match read_model(text) {
        Ok(model) => refuted(model, bound, words, hints),
        Err(refusal) => refused_refute(refusal.number(), refusal.line()),
    }
}
