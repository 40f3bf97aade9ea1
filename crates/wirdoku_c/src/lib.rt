// The library for C: each call of include/wirdoku.h in ../wirdoku, exported under its name, is the call of that name of the crate wirdoku,
// with its contract.
#![tactic(auto)]

ghost use Rattle.std.specs.Prelude.{◌≡◌, length};
ghost use Rattle.model.specs.Automaton.{initial_state};
ghost use Rattle.model.specs.Refusal.{refusal};
ghost use Rattle.text.specs.Text.{read_report, if_read};
ghost use Rattle.walk.specs.StepCall.{step_report};
ghost use Rattle.walk.specs.Walker.{walk_report};
ghost use Rattle.encode.specs.EncodeCall.{encode_report, encode_left};
ghost use Rattle.decode.specs.DecodeCall.{decode_report, decode_left};
ghost use Rattle.counts.specs.CountsCall.{list_report};
ghost use Rattle.dimacs.specs.DimacsCall.{file_report, file_left};
ghost use Rattle.emission.specs.EmitCall.{emit_left};
ghost use Rattle.refute.specs.RefuteCall.{refute_report};
ghost use Rattle.output.specs.OutputCall.{output_report, output_left};
ghost use Rattle.sizing.specs.SizeCall.{refused_sizes, text_sizes, text_left, size_report, size_left, size_told};
ghost use Rattle.wirdoku.specs.TextCall.{answer_told, text_report, counted_sizes, shape_of, refused_shape, file_reply, refused_file, state_answer, zero_state, step_answer, output_in, refute_reply, refused_refute};

use model::State;
use sizing::SizeAnswer;
use wirdoku::{Answer, FileReply, OutputReply, RefuteReply, Shape, StateAnswer};

mod pairs;

// Reads the text: 1 to 8.
#[unsafe(no_mangle)]
pub extern "C" fn wirdoku_read(text: &[u8]) -> Answer
    ensures { answer_told result ≡ text_report (read_report text.now) }
{
    wirdoku::wirdoku_read(text)
}

// What the model declares: the text.
#[unsafe(no_mangle)]
pub extern "C" fn wirdoku_shape(text: &[u8]) -> Shape
    ensures { result ≡ if_read (read_report text.now) shape_of refused_shape }
{
    wirdoku::wirdoku_shape(text)
}

// The counts of the list for a bound, by formula: the text, 21.
#[unsafe(no_mangle)]
pub extern "C" fn wirdoku_counts(text: &[u8], bound: usize) -> SizeAnswer
    ensures { size_told result ≡ if_read (read_report text.now) (λ m. counted_sizes (list_report m bound)) refused_sizes }
{
    wirdoku::wirdoku_counts(text, bound)
}

// Writes the list for a bound: the text, 21, 22.
#[unsafe(no_mangle)]
pub extern "C" fn wirdoku_emit(text: &[u8], bound: usize, out: &mut [i32]) -> SizeAnswer
    ensures result_value { size_told result ≡ text_sizes (read_report text.now) bound (length out.old) }
    ensures out_after { out.new ≡ text_left (read_report text.now) bound out.old }
{
    wirdoku::wirdoku_emit(text, bound, out)
}

// Writes the DIMACS file of the list for a bound: the text, 21, 32.
#[unsafe(no_mangle)]
pub extern "C" fn wirdoku_dimacs(text: &[u8], bound: usize, out: &mut [u8]) -> FileReply
    ensures value { result ≡ if_read (read_report text.now) (λ m. file_reply (file_report m bound (length out.old))) refused_file }
    ensures out_after { out.new ≡ if_read (read_report text.now) (λ m. file_left m bound out.old) (λ n l. out.old) }
{
    wirdoku::wirdoku_dimacs(text, bound, out)
}

// The size program's question, on a bound line and a model text: 9, the text, 21, 22.
#[unsafe(no_mangle)]
pub extern "C" fn wirdoku_size(input: &[u8], out: &mut [i32]) -> SizeAnswer
    ensures result_value { size_told result ≡ size_report input.now (length out.old) }
    ensures out_after { out.new ≡ size_left input.now out.old }
{
    wirdoku::wirdoku_size(input, out)
}

// The initial state, whether or not its invariant holds: the text, and then a state of zeros.
#[unsafe(no_mangle)]
pub extern "C" fn wirdoku_initial(text: &[u8]) -> StateAnswer
    ensures { result ≡ if_read (read_report text.now) (λ m. state_answer 0 0 (initial_state m)) (λ n l. state_answer n l zero_state) }
{
    wirdoku::wirdoku_initial(text)
}

// One step byte from a state: the text, 10, 27, 28, and then the given state.
#[unsafe(no_mangle)]
pub extern "C" fn wirdoku_step(text: &[u8], state: State, byte: u8) -> StateAnswer
    ensures { result ≡ if_read (read_report text.now) (λ m. step_answer (step_report m state byte)) (λ n l. state_answer n l state) }
{
    wirdoku::wirdoku_step(text, state, byte)
}

// Walks a run: the text, 21, 29; per step 27, 28; 30.
#[unsafe(no_mangle)]
pub extern "C" fn wirdoku_walk(text: &[u8], run: &[u8]) -> Answer
    ensures { answer_told result ≡ if_read (read_report text.now) (λ m. walk_report m run.now) refusal }
{
    wirdoku::wirdoku_walk(text, run)
}

// Writes the run of an assignment: the text, 21, 23, 24, 25, 26.
#[unsafe(no_mangle)]
pub extern "C" fn wirdoku_assignment_to_run(
    text: &[u8],
    bound: usize,
    assignment: &[u8],
    run: &mut [u8],
) -> Answer
    ensures result_value { answer_told result ≡ if_read (read_report text.now) (λ m. decode_report m bound assignment.now (length run.old)) refusal }
    ensures run_after { run.new ≡ if_read (read_report text.now) (λ m. decode_left m bound assignment.now run.old) (λ n l. run.old) }
{
    wirdoku::wirdoku_assignment_to_run(text, bound, assignment, run)
}

// Writes the assignment of a run: the text, 21 and the walker's rows, 31.
#[unsafe(no_mangle)]
pub extern "C" fn wirdoku_run_to_assignment(
    text: &[u8],
    run: &[u8],
    assignment: &mut [u8],
) -> Answer
    ensures result_value { answer_told result ≡ if_read (read_report text.now) (λ m. encode_report m run.now (length assignment.old)) refusal }
    ensures assignment_after { assignment.new ≡ if_read (read_report text.now) (λ m. encode_left m run.now assignment.old) (λ n l. assignment.old) }
{
    wirdoku::wirdoku_run_to_assignment(text, run, assignment)
}

// Reads a solver's output and writes the assignment that it names: 33, 34, 35.
#[unsafe(no_mangle)]
pub extern "C" fn wirdoku_output_to_assignment(output: &[u8], assignment: &mut [u8]) -> OutputReply
    ensures result_value { output_in result ≡ output_report output.now (length assignment.old) }
    ensures assignment_after { assignment.new ≡ output_left output.now assignment.old }
{
    wirdoku::wirdoku_output_to_assignment(output, assignment)
}

// Writes the list for a bound in front of the lemmas and follows the hints: the text, 21, 22.
#[unsafe(no_mangle)]
pub extern "C" fn wirdoku_refute(
    text: &[u8],
    bound: usize,
    words: &mut [i32],
    hints: &[u32],
) -> RefuteReply
    ensures value { result ≡ if_read (read_report text.now) (λ m. refute_reply (refute_report m bound words.old hints.now)) refused_refute }
    ensures words_after { words.new ≡ if_read (read_report text.now) (λ m. emit_left m bound (length words.old) words.old) (λ n l. words.old) }
{
    wirdoku::wirdoku_refute(text, bound, words, hints)
}
