// The calls for C on two model texts.
ghost use Rattle.std.specs.Prelude.{◌≡◌, length};
ghost use Rattle.model.specs.Automaton.{initial_state};
ghost use Rattle.model.specs.Refusal.{refusal};
ghost use Rattle.text.specs.Text.{read_report};
ghost use Rattle.walk.specs.StepCall.{step_report};
ghost use Rattle.walk.specs.Walker.{walk_report};
ghost use Rattle.encode.specs.EncodeCall.{encode_report, encode_left};
ghost use Rattle.decode.specs.DecodeCall.{decode_report, decode_left};
ghost use Rattle.counts.specs.CountsCall.{list_report};
ghost use Rattle.dimacs.specs.DimacsCall.{file_report, file_left};
ghost use Rattle.compose.specs.Parts.{parts_report};
ghost use Rattle.emission.specs.EmitCall.{emit_report, emit_left};
ghost use Rattle.refute.specs.RefuteCall.{refute_report};
ghost use Rattle.sizing.specs.SizeCall.{refused_sizes, emitted_sizes, size_told};
ghost use Rattle.wirdoku.specs.TextCall.{answer_told, counted_sizes, shape_of, refused_shape, file_reply, refused_file, state_answer, zero_state, step_answer, refute_reply, refused_refute};
ghost use Rattle.wirdoku.specs.PairCall.{if_both, pair_report, if_pair, pair_answer, parts_answer, refused_parts};

use model::State;
use sizing::SizeAnswer;
use wirdoku::{Answer, FileReply, PairAnswer, PartSteps, RefuteReply, Shape, StateAnswer};

// Reads both texts and composes their models: the first text, the second, 38.
#[unsafe(no_mangle)]
pub extern "C" fn wirdoku_pair_read(first: &[u8], second: &[u8]) -> PairAnswer
    ensures { result ≡ pair_answer (pair_report (read_report first.now) (read_report second.now)) }
{
    wirdoku::wirdoku_pair_read(first, second)
}

// What the composed model declares: both texts, 38.
#[unsafe(no_mangle)]
pub extern "C" fn wirdoku_pair_shape(first: &[u8], second: &[u8]) -> Shape
    ensures { result ≡ if_pair (pair_report (read_report first.now) (read_report second.now)) shape_of refused_shape }
{
    wirdoku::wirdoku_pair_shape(first, second)
}

// The counts of its list for a bound, by formula: both texts, 38, 21.
#[unsafe(no_mangle)]
pub extern "C" fn wirdoku_pair_counts(first: &[u8], second: &[u8], bound: usize) -> SizeAnswer
    ensures { size_told result ≡ if_pair (pair_report (read_report first.now) (read_report second.now)) (λ m. counted_sizes (list_report m bound)) refused_sizes }
{
    wirdoku::wirdoku_pair_counts(first, second, bound)
}

// Writes its list for a bound: both texts, 38, 21, 22.
#[unsafe(no_mangle)]
pub extern "C" fn wirdoku_pair_emit(
    first: &[u8],
    second: &[u8],
    bound: usize,
    out: &mut [i32],
) -> SizeAnswer
    ensures result_value { size_told result ≡ if_pair (pair_report (read_report first.now) (read_report second.now)) (λ m. emitted_sizes (emit_report m bound (length out.old))) refused_sizes }
    ensures out_after { out.new ≡ if_pair (pair_report (read_report first.now) (read_report second.now)) (λ m. emit_left m bound (length out.old) out.old) (λ n l. out.old) }
{
    wirdoku::wirdoku_pair_emit(first, second, bound, out)
}

// Writes the DIMACS file of its list for a bound: both texts, 38, 21, 32.
#[unsafe(no_mangle)]
pub extern "C" fn wirdoku_pair_dimacs(
    first: &[u8],
    second: &[u8],
    bound: usize,
    out: &mut [u8],
) -> FileReply
    ensures value { result ≡ if_pair (pair_report (read_report first.now) (read_report second.now)) (λ m. file_reply (file_report m bound (length out.old))) refused_file }
    ensures out_after { out.new ≡ if_pair (pair_report (read_report first.now) (read_report second.now)) (λ m. file_left m bound out.old) (λ n l. out.old) }
{
    wirdoku::wirdoku_pair_dimacs(first, second, bound, out)
}

// Its initial state, whether or not its invariant holds: both texts, 38, and then a state of zeros.
#[unsafe(no_mangle)]
pub extern "C" fn wirdoku_pair_initial(first: &[u8], second: &[u8]) -> StateAnswer
    ensures { result ≡ if_pair (pair_report (read_report first.now) (read_report second.now)) (λ m. state_answer 0 0 (initial_state m)) (λ n l. state_answer n l zero_state) }
{
    wirdoku::wirdoku_pair_initial(first, second)
}

// One step byte from a state of it: both texts, 38, 10, 27, 28, and then the given state.
#[unsafe(no_mangle)]
pub extern "C" fn wirdoku_pair_step(
    first: &[u8],
    second: &[u8],
    state: State,
    byte: u8,
) -> StateAnswer
    ensures { result ≡ if_pair (pair_report (read_report first.now) (read_report second.now)) (λ m. step_answer (step_report m state byte)) (λ n l. state_answer n l state) }
{
    wirdoku::wirdoku_pair_step(first, second, state, byte)
}

// Walks a run of it: both texts, 38, 21, 29; per step 27, 28; 30.
#[unsafe(no_mangle)]
pub extern "C" fn wirdoku_pair_walk(first: &[u8], second: &[u8], run: &[u8]) -> Answer
    ensures { answer_told result ≡ if_pair (pair_report (read_report first.now) (read_report second.now)) (λ m. walk_report m run.now) refusal }
{
    wirdoku::wirdoku_pair_walk(first, second, run)
}

// Writes the run of an assignment: both texts, 38, 21, 23, 24, 25, 26.
#[unsafe(no_mangle)]
pub extern "C" fn wirdoku_pair_assignment_to_run(
    first: &[u8],
    second: &[u8],
    bound: usize,
    assignment: &[u8],
    run: &mut [u8],
) -> Answer
    ensures result_value { answer_told result ≡ if_pair (pair_report (read_report first.now) (read_report second.now)) (λ m. decode_report m bound assignment.now (length run.old)) refusal }
    ensures run_after { run.new ≡ if_pair (pair_report (read_report first.now) (read_report second.now)) (λ m. decode_left m bound assignment.now run.old) (λ n l. run.old) }
{
    wirdoku::wirdoku_pair_assignment_to_run(first, second, bound, assignment, run)
}

// Writes the assignment of a run of it: both texts, 38, 21 and the walker's rows, 31.
#[unsafe(no_mangle)]
pub extern "C" fn wirdoku_pair_run_to_assignment(
    first: &[u8],
    second: &[u8],
    run: &[u8],
    assignment: &mut [u8],
) -> Answer
    ensures result_value { answer_told result ≡ if_pair (pair_report (read_report first.now) (read_report second.now)) (λ m. encode_report m run.now (length assignment.old)) refusal }
    ensures assignment_after { assignment.new ≡ if_pair (pair_report (read_report first.now) (read_report second.now)) (λ m. encode_left m run.now assignment.old) (λ n l. assignment.old) }
{
    wirdoku::wirdoku_pair_run_to_assignment(first, second, run, assignment)
}

// Writes its list for a bound in front of the lemmas and follows the hints: both texts, 38, 21, 22.
#[unsafe(no_mangle)]
pub extern "C" fn wirdoku_pair_refute(
    first: &[u8],
    second: &[u8],
    bound: usize,
    words: &mut [i32],
    hints: &[u32],
) -> RefuteReply
    ensures value { result ≡ if_pair (pair_report (read_report first.now) (read_report second.now)) (λ m. refute_reply (refute_report m bound words.old hints.now)) refused_refute }
    ensures words_after { words.new ≡ if_pair (pair_report (read_report first.now) (read_report second.now)) (λ m. emit_left m bound (length words.old) words.old) (λ n l. words.old) }
{
    wirdoku::wirdoku_pair_refute(first, second, bound, words, hints)
}

// What a step byte of the composed model is in each part: both texts, 38, 27, and then 0 and 0.
#[unsafe(no_mangle)]
pub extern "C" fn wirdoku_pair_parts(first: &[u8], second: &[u8], byte: u8) -> PartSteps
    ensures { result ≡ if_both (read_report first.now) (read_report second.now) (λ a b. parts_answer (parts_report a b byte)) (λ t. refused_parts) }
{
    wirdoku::wirdoku_pair_parts(first, second, byte)
}
