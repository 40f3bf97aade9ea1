// One step byte from a given state, and the run walker.
#![tactic(auto)]

ghost use Rattle.std.specs.Prelude.{◌≡◌, ◌≤◌, T, length};
ghost use Rattle.model.specs.Automaton.{ceiling, step};
ghost use Rattle.model.specs.Form.{well_formed};
ghost use Rattle.walk.specs.StepCall.{step_report, step_number, step_told};
ghost use Rattle.walk.specs.Walker.{walk_steps, walk_report, run_refusal, walk_told};

use form::{state_formed, well_formed};
use model::{Model, State};

// Why a step byte is refused.
#[derive(Clone, Copy, Debug, PartialEq, Eq)]
pub enum StepRefusal {
    NotWellFormed = 20,
    StateNotFormed = 10,
    NoSuchChoice = 27,
    NotAllowed = 28,
}

// Why a run is refused. A step is counted from 1.
#[derive(Clone, Copy, Debug, PartialEq, Eq)]
pub enum RunRefusal {
    NotWellFormed,
    TooLong,
    InitialInvariantFails,
    NoSuchChoice { step: u8 },
    NotAllowed { step: u8 },
    NotInTarget,
}

impl StepRefusal {
    pub fn number(self) -> u8
        ensures { result ≡ step_number self }
    {
        self as u8
    }
}

impl RunRefusal {
    pub fn number(self) -> u8
        ensures { result ≡ (run_refusal self).number }
    {
        match self {
            RunRefusal::NotWellFormed => 20,
            RunRefusal::TooLong => 21,
            RunRefusal::InitialInvariantFails => 29,
            RunRefusal::NoSuchChoice { .. } => 27,
            RunRefusal::NotAllowed { .. } => 28,
            RunRefusal::NotInTarget => 30,
        }
    }

    pub fn place(self) -> u8
        ensures { result ≡ (run_refusal self).place }
    {
        match self {
            RunRefusal::NoSuchChoice { step } | RunRefusal::NotAllowed { step } => step,
            RunRefusal::NotWellFormed
            | RunRefusal::TooLong
            | RunRefusal::InitialInvariantFails
            | RunRefusal::NotInTarget => 0,
        }
    }
}

// One step byte of a well-formed model with the ceiling `top`: the new state, if the step is allowed.
pub fn advance(m: Model, top: u8, s: State, byte: u8) -> Option<State>
    requires { T (well_formed m) × (top ≡ ceiling m) }
    ensures { result ≡ step m s byte }
{
    if byte <= top {
        return s.delay(m, top, byte);
    }
    let e = byte as usize - (top as usize + 1);
    if e < m.used as usize {
        s.edge(m, m.edges[e])
    } else {
        None
    }
}

// The step call: 20, 10, 27, 28.
pub fn step(m: Model, s: State, byte: u8) -> Result<State, StepRefusal>
    ensures { step_told s result ≡ step_report m s byte }
{
    if !well_formed(m) {
        return Err(StepRefusal::NotWellFormed);
    }
    if !state_formed(m, s) {
        return Err(StepRefusal::StateNotFormed);
    }
    let z = m.totals();
    if z.choices <= byte as usize {
        return Err(StepRefusal::NoSuchChoice);
    }
    advance(m, z.ceiling as u8, s, byte).ok_or(StepRefusal::NotAllowed)
}

// The bytes of a run of at most 64 steps, walked from the state `first`.
fn walk_from(m: Model, first: State, run: &[u8]) -> Result<(), RunRefusal>
    requires { T (well_formed m) × (length run.now ≤ 64) }
    ensures { walk_told result ≡ walk_steps m 1 first run.now }
{
    let z = m.totals();
    let mut s = first;
    for (t, byte) in run.iter().enumerate() {
        let step = t as u8 + 1;
        if z.choices <= *byte as usize {
            return Err(RunRefusal::NoSuchChoice { step });
        }
        let Some(next) = advance(m, z.ceiling as u8, s, *byte) else {
            return Err(RunRefusal::NotAllowed { step });
        };
        s = next;
    }
    if s.location != m.target {
        return Err(RunRefusal::NotInTarget);
    }
    Ok(())
}

// The run walker: 20, 21, 29; per step 27, 28; 30.
pub fn walk(m: Model, run: &[u8]) -> Result<(), RunRefusal>
    ensures { walk_told result ≡ walk_report m run.now }
{
    if !well_formed(m) {
        return Err(RunRefusal::NotWellFormed);
    }
    if run.len() > Model::STEPS {
        return Err(RunRefusal::TooLong);
    }
    let first = m.initial_state();
    if !m.invariant_holds(first) {
        return Err(RunRefusal::InitialInvariantFails);
    }
    walk_from(m, first, run)
}
