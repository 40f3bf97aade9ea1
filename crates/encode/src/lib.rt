// Run to assignment: the one satisfying assignment of a run, written into a lent buffer.
#![tactic(auto)]

ghost use Rattle.std.specs.Prelude.{◌≡◌, ◌+◌, ◌≤◌, T, length};
ghost use Rattle.model.specs.Indexed.{each, list_below};
ghost use Rattle.model.specs.Automaton.{ceiling, initial_state};
ghost use Rattle.model.specs.Bounds.{KnownTotals};
ghost use Rattle.model.specs.Form.{well_formed};
ghost use Rattle.list.specs.Assignments.{one_hot, state_bytes, steps_bytes, assignment_of};
ghost use Rattle.buffer.specs.Buffers.{Room, Wrote};
ghost use Rattle.encode.specs.BlockBytes.{counter_group, clock_group, shown_bytes, step_bytes, Walks};
ghost use Rattle.encode.specs.EncodeCall.{encode_refusal, encode_told, encode_report, encode_left};
ghost use Rattle.encode.specs.declared.EncodeRefusal.TheVariants.{Run};

use model::{Model, State, Totals};
use std::array;
use walk::{RunRefusal, advance, walk};

// Why a run is not written as an assignment.
#[derive(Clone, Copy, Debug, PartialEq, Eq)]
pub enum EncodeRefusal {
    Run(RunRefusal),
    BufferTooShort,
}

impl EncodeRefusal {
    pub fn number(self) -> u8
        ensures { result ≡ (encode_refusal self).number }
    {
        match self {
            EncodeRefusal::Run(refusal) => refusal.number(),
            EncodeRefusal::BufferTooShort => 31,
        }
    }

    pub fn place(self) -> u8
        ensures { result ≡ (encode_refusal self).place }
    {
        match self {
            EncodeRefusal::Run(refusal) => refusal.place(),
            EncodeRefusal::BufferTooShort => 0,
        }
    }
}

impl From<RunRefusal> for EncodeRefusal {
    ghost from_gives = { λ r e. e ≡ Run r };

    fn from(refusal: RunRefusal) -> EncodeRefusal {
        EncodeRefusal::Run(refusal)
    }
}

// A group of `size` members that shows `value`.
#[derive(Clone, Copy, Debug, PartialEq, Eq)]
struct Shown {
    size: usize,
    value: usize,
}

// A group of `n` members in which member `d` is true. Like every writer here it begins at the index `at` and answers the index after its last byte.
fn put_group(n: usize, d: usize, out: &mut [u8], at: usize) -> usize
    requires { Room (one_hot n d) out.old at }
    ensures { Wrote (one_hot n d) out.old out.new at result }
{
    let group = &mut out[at..at + n];
    for (v, member) in group.iter_mut().enumerate() {
        *member = u8::from(v == d);
    }
    at + n
}

// The groups, one after the other.
fn put_groups(groups: &[Shown], out: &mut [u8], at: usize) -> usize
    requires { Room (each (length groups.now) (shown_bytes groups.now)) out.old at }
    ensures { Wrote (each (length groups.now) (shown_bytes groups.now)) out.old out.new at result }
{
    let mut end = at;
    for group in groups {
        end = put_group(group.size, group.value, out, end);
    }
    end
}

// A group for each counter slot.
fn counter_groups(m: Model, s: State) -> [Shown; Model::COUNTERS]
    ensures { result ≡ list_below (counter_group m.counters s.counters) 4 }
{
    array::from_fn(|i| Shown {
        size: m.counters[i].greatest as usize + 1,
        value: s.counters[i] as usize,
    })
}

// A group for each clock slot, under the ceiling `top`.
fn clock_groups(top: usize, s: State) -> [Shown; Model::CLOCKS]
    requires { top ≤ 256 }
    ensures { result ≡ list_below (clock_group top s.clocks) 4 }
{
    let size = top + 1;
    s.clocks.map(|value| Shown {
        size,
        value: value as usize,
    })
}

// The block of a state: its location, each counter, each clock.
fn put_state(m: Model, top: usize, s: State, out: &mut [u8], at: usize) -> usize
    requires { T (well_formed m) × (top ≡ ceiling m) × Room (state_bytes one_hot m s) out.old at }
    ensures { Wrote (state_bytes one_hot m s) out.old out.new at result }
{
    let counters = counter_groups(m, s);
    let clocks = clock_groups(top, s);
    let after_location = put_group(m.locations as usize, s.location as usize, out, at);
    let after_counters = put_groups(&counters[..m.vars as usize], out, after_location);
    put_groups(&clocks[..m.clocks as usize], out, after_counters)
}

// The blocks of a step: its choice, and the state that it leads to.
fn put_step(m: Model, z: Totals, byte: u8, next: State, out: &mut [u8], at: usize) -> usize
    requires { T (well_formed m) × KnownTotals m z × Room (step_bytes m byte next) out.old at }
    ensures { Wrote (step_bytes m byte next) out.old out.new at result }
{
    let after_choice = put_group(z.choices, byte as usize, out, at);
    put_state(m, z.ceiling, next, out, after_choice)
}

// The blocks of each step of a run that can be walked from the state `first`.
fn put_steps(m: Model, first: State, run: &[u8], out: &mut [u8], at: usize) -> usize
    requires { T (well_formed m) × Walks m first run.now × Room (steps_bytes one_hot m first run.now) out.old at }
    ensures { Wrote (steps_bytes one_hot m first run.now) out.old out.new at result }
{
    let z = m.totals();
    let mut s = first;
    let mut end = at;
    for byte in run {
        let next = advance(m, z.ceiling as u8, s, *byte).unwrap();
        end = put_step(m, z, *byte, next, out, end);
        s = next;
    }
    end
}

// The assignment of a run that can be walked from the initial state.
fn put_assignment(m: Model, run: &[u8], out: &mut [u8]) -> usize
    requires { T (well_formed m) × Walks m (initial_state m) run.now × Room (assignment_of m run.now) out.old 0 }
    ensures { Wrote (assignment_of m run.now) out.old out.new 0 result }
{
    let first = m.initial_state();
    let at = put_state(m, m.ceiling(), first, out, 0);
    put_steps(m, first, run, out, at)
}

// Run to assignment: 20, 21 and the walker's rows, then 31.
pub fn run_to_assignment(m: Model, run: &[u8], out: &mut [u8]) -> Result<(), EncodeRefusal>
    ensures result_value { encode_told result ≡ encode_report m run.now (length out.old) }
    ensures out_after { out.new ≡ encode_left m run.now out.old }
{
    walk(m, run)?;
    if out.len() < m.variables(run.len() as u8) {
        return Err(EncodeRefusal::BufferTooShort);
    }
    put_assignment(m, run, out);
    Ok(())
}
