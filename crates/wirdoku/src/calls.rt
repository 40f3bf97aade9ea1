// The calls on a model, and what is told where there is none.
ghost use Rattle.std.specs.Prelude.{◌≡◌, length};
ghost use Rattle.walk.specs.StepCall.{step_report};
ghost use Rattle.walk.specs.Walker.{walk_report};
ghost use Rattle.encode.specs.EncodeCall.{encode_report, encode_left};
ghost use Rattle.decode.specs.DecodeCall.{decode_report, decode_left};
ghost use Rattle.counts.specs.CountsCall.{list_report};
ghost use Rattle.dimacs.specs.DimacsCall.{file_report, file_left};
ghost use Rattle.emission.specs.EmitCall.{emit_left};
ghost use Rattle.refute.specs.RefuteCall.{refute_report};
ghost use Rattle.sizing.specs.SizeCall.{refused_sizes, size_told};
ghost use Rattle.wirdoku.specs.TextCall.{answer_told, counted_sizes, shape_of, refused_shape, file_reply, refused_file, state_answer, zero_state, step_answer, refute_reply, refused_refute};

use crate::{Answer, FileReply, RefuteReply, Shape, StateAnswer};
use counts::counts_of;
use decode::assignment_to_run;
use dimacs::write_file;
use encode::run_to_assignment;
use model::{Model, State};
use refute::refute;
use sizing::SizeAnswer;
use walk::{step, walk};

pub fn told(number: u8, place: usize) -> Answer
    ensures { result ≡ record { number = number; place = place } }
{
    Answer { number, place }
}

pub fn shape_of(m: Model) -> Shape
    ensures { result ≡ shape_of m }
{
    let z = m.totals();
    Shape {
        number: 0,
        line: 0,
        locations: m.locations,
        initial: m.initial,
        target: m.target,
        clocks: m.clocks,
        counters: m.vars,
        edges: m.used,
        ceiling: z.ceiling,
        state: z.state,
        choices: z.choices,
    }
}

pub fn refused_shape(number: u8, line: usize) -> Shape
    ensures { result ≡ refused_shape number line }
{
    Shape {
        number,
        line,
        locations: 0,
        initial: 0,
        target: 0,
        clocks: 0,
        counters: 0,
        edges: 0,
        ceiling: 0,
        state: 0,
        choices: 0,
    }
}

pub fn refused_sizes(number: u8, line: usize) -> SizeAnswer
    ensures { size_told result ≡ refused_sizes number line }
{
    SizeAnswer {
        number,
        line,
        variables: 0,
        clauses: 0,
        words: 0,
    }
}

// The counts of the list: 21.
pub fn counted(m: Model, bound: usize) -> SizeAnswer
    ensures { size_told result ≡ counted_sizes (list_report m bound) }
{
    match counts_of(m, bound) {
        Ok(n) => SizeAnswer {
            number: 0,
            line: 0,
            variables: n.variables,
            clauses: n.clauses,
            words: n.words,
        },
        Err(refusal) => refused_sizes(refusal.number(), 0),
    }
}

pub fn refused_file(number: u8, line: usize) -> FileReply
    ensures { result ≡ refused_file number line }
{
    FileReply {
        number,
        line,
        bytes: 0,
    }
}

// Writes the DIMACS file: 21, 32.
pub fn filed(m: Model, bound: usize, out: &mut [u8]) -> FileReply
    ensures result_value { result ≡ file_reply (file_report m bound (length out.old)) }
    ensures out_after { out.new ≡ file_left m bound out.old }
{
    match write_file(m, bound, out) {
        Ok(bytes) => FileReply {
            number: 0,
            line: 0,
            bytes,
        },
        Err(refusal) => FileReply {
            number: refusal.number(),
            line: 0,
            bytes: refusal.bytes(),
        },
    }
}

pub fn state_answer(number: u8, line: usize, state: State) -> StateAnswer
    ensures { result ≡ state_answer number line state }
{
    StateAnswer {
        number,
        line,
        state,
    }
}

pub fn zero_state() -> State
    ensures { result ≡ zero_state }
{
    State {
        location: 0,
        counters: [0u8; Model::COUNTERS],
        clocks: [0u8; Model::CLOCKS],
    }
}

// One step byte from a state: 10, 27, 28, and then the given state.
pub fn stepped(m: Model, state: State, byte: u8) -> StateAnswer
    ensures { result ≡ step_answer (step_report m state byte) }
{
    match step(m, state, byte) {
        Ok(next) => state_answer(0, 0, next),
        Err(refusal) => state_answer(refusal.number(), 0, state),
    }
}

// Walks a run: 21, 29; per step 27, 28; 30.
pub fn walked(m: Model, run: &[u8]) -> Answer
    ensures { answer_told result ≡ walk_report m run.now }
{
    match walk(m, run) {
        Ok(()) => told(0, 0),
        Err(refusal) => told(refusal.number(), refusal.place() as usize),
    }
}

// Writes the run of an assignment: 21, 23, 24, 25, 26.
pub fn decoded(m: Model, bound: usize, assignment: &[u8], run: &mut [u8]) -> Answer
    ensures result_value { answer_told result ≡ decode_report m bound assignment.now (length run.old) }
    ensures run_after { run.new ≡ decode_left m bound assignment.now run.old }
{
    match assignment_to_run(m, bound, assignment, run) {
        Ok(()) => told(0, 0),
        Err(refusal) => told(refusal.number(), refusal.place()),
    }
}

// Writes the assignment of a run: 21 and the walker's rows, 31.
pub fn encoded(m: Model, run: &[u8], assignment: &mut [u8]) -> Answer
    ensures result_value { answer_told result ≡ encode_report m run.now (length assignment.old) }
    ensures assignment_after { assignment.new ≡ encode_left m run.now assignment.old }
{
    match run_to_assignment(m, run, assignment) {
        Ok(()) => told(0, 0),
        Err(refusal) => told(refusal.number(), refusal.place() as usize),
    }
}

pub fn refused_refute(number: u8, line: usize) -> RefuteReply
    ensures { result ≡ refused_refute number line }
{
    RefuteReply {
        number,
        line,
        words: 0,
        outcome: 0,
    }
}

// Writes the list for a bound in front of the lemmas and follows the hints: 21, 22.
pub fn refuted(m: Model, bound: usize, words: &mut [i32], hints: &[u32]) -> RefuteReply
    ensures result_value { result ≡ refute_reply (refute_report m bound words.old hints.now) }
    ensures words_after { words.new ≡ emit_left m bound (length words.old) words.old }
{
    match refute(m, bound, words, hints) {
        Ok(r) => RefuteReply {
            number: 0,
            line: 0,
            words: r.words,
            outcome: r.outcome(),
        },
        Err(refusal) => RefuteReply {
            number: refusal.number(),
            line: 0,
            words: refusal.words(),
            outcome: 0,
        },
    }
}
