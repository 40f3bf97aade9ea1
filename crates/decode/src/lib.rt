// Assignment to run: the run of a satisfying assignment, written into a lent buffer.
#![tactic(auto)]

ghost use Rattle.std.specs.Prelude.{◌≡◌, ◌++◌, ◌+◌, ◌≤◌, T, length, drop};
ghost use Rattle.model.specs.Automaton.{variables};
ghost use Rattle.model.specs.Form.{well_formed};
ghost use Rattle.list.specs.Assignments.{run_of};
ghost use Rattle.decode.specs.DecodeCall.{first_wrong_byte, Place, list_refused, decode_refusal, decode_told, decode_report, decode_left};

use form::{ListRefusal, check_bound};
use model::Model;
use parts::layout::Layout;
use search::first_false;

// Why an assignment is not decoded.
#[derive(Clone, Copy, Debug, PartialEq, Eq)]
pub enum DecodeRefusal {
    NotWellFormed,
    BoundTooLarge,
    WrongLength,
    WrongByte { index: usize },
    RunBufferTooShort,
    FalseClause { index: usize },
}

impl DecodeRefusal {
    pub fn number(self) -> u8
        ensures { result ≡ (decode_refusal self).number }
    {
        match self {
            DecodeRefusal::NotWellFormed => 20,
            DecodeRefusal::BoundTooLarge => 21,
            DecodeRefusal::WrongLength => 23,
            DecodeRefusal::WrongByte { .. } => 24,
            DecodeRefusal::RunBufferTooShort => 25,
            DecodeRefusal::FalseClause { .. } => 26,
        }
    }

    pub fn place(self) -> usize
        ensures { result ≡ (decode_refusal self).place }
    {
        match self {
            DecodeRefusal::WrongByte { index } | DecodeRefusal::FalseClause { index } => index,
            DecodeRefusal::NotWellFormed
            | DecodeRefusal::BoundTooLarge
            | DecodeRefusal::WrongLength
            | DecodeRefusal::RunBufferTooShort => 0,
        }
    }
}

impl From<ListRefusal> for DecodeRefusal {
    ghost from_gives = { λ r e. e ≡ list_refused r };

    fn from(refusal: ListRefusal) -> DecodeRefusal {
        match refusal {
            ListRefusal::NotWellFormed => DecodeRefusal::NotWellFormed,
            ListRefusal::BoundTooLarge => DecodeRefusal::BoundTooLarge,
        }
    }
}

// The first byte of `a` that is not 0 or 1.
fn first_wrong_byte(a: &[u8]) -> Option<usize>
    ensures { result ≡ first_wrong_byte 0 a.now }
{
    a.iter().position(|byte| *byte > 1)
}

// The place of the true member of the group of `n` members at `b`.
fn place_of_true(a: &[u8], b: usize, n: usize) -> usize
    requires { b + n ≤ length a.now }
    ensures { Place a.now b n result }
{
    a[b..b + n].iter().position(|byte| *byte == 1).unwrap_or(n)
}

// The run of an assignment for `bound` steps, from the start of the run buffer.
fn put_run(m: Model, bound: usize, a: &[u8], run: &mut [u8])
    requires { T (well_formed m) × (bound ≤ 64) × (length a.now ≡ variables m bound) × (bound ≤ length run.old) }
    ensures { run.new ≡ run_of m bound a.now ++ drop bound run.old }
{
    let layout = Layout::new(m);
    let bytes = &mut run[..bound];
    for (t, byte) in bytes.iter_mut().enumerate() {
        let choice = layout.variable_number(t, layout.totals.state) - 1;
        *byte = place_of_true(a, choice, layout.totals.choices) as u8;
    }
}

// Assignment to run: 20, 21, 23, 24, 25, 26.
pub fn assignment_to_run(
    m: Model,
    bound: usize,
    a: &[u8],
    run: &mut [u8],
) -> Result<(), DecodeRefusal>
    ensures result_value { decode_told result ≡ decode_report m bound a.now (length run.old) }
    ensures run_after { run.new ≡ decode_left m bound a.now run.old }
{
    check_bound(m, bound)?;
    if a.len() != m.variables(bound as u8) {
        return Err(DecodeRefusal::WrongLength);
    }
    if let Some(index) = first_wrong_byte(a) {
        return Err(DecodeRefusal::WrongByte { index });
    }
    if run.len() < bound {
        return Err(DecodeRefusal::RunBufferTooShort);
    }
    if let Some(index) = first_false(m, bound, a) {
        return Err(DecodeRefusal::FalseClause { index });
    }
    put_run(m, bound, a, run);
    Ok(())
}
