// The record of a model, the limits that stand with it, and the state of an automaton.
#![tactic(auto)]

ghost use Rattle.std.specs.Prelude.{◌≡◌};
ghost use Rattle.model.specs.Record.{blank_model};

mod atoms;
mod ceiling;
mod steps;
pub mod updates;

// How an atom compares a value with its constant.
#[derive(Clone, Copy, Debug, PartialEq, Eq)]
pub enum Relation {
    Less,
    LessEqual,
    Equal,
    GreaterEqual,
    Greater,
    NotEqual,
}

// One condition of an invariant or a guard; `Blank` marks a slot without one.
#[derive(Clone, Copy, Debug, PartialEq, Eq)]
pub enum Atom {
    Blank,
    OnClock {
        clock: u8,
        relation: Relation,
        constant: u8,
    },
    OnCounter {
        counter: u8,
        relation: Relation,
        constant: u8,
    },
}

// What an edge does to a counter: keep it, set it to a constant, or set it to the value of `source` plus `offset`.
#[derive(Clone, Copy, Debug, PartialEq, Eq)]
pub enum Update {
    Keep,
    Constant(u8),
    Sum { source: u8, offset: i8 },
}

// What an edge does to a clock: leave it unchanged, reset it, or give it the value that clock `source` had before the edge.
#[derive(Clone, Copy, Debug, PartialEq, Eq)]
pub enum ClockUpdate {
    Unchanged,
    Reset,
    Copy { source: u8 },
}

// A declared counter: it shows 0 to `greatest` and begins at `initial`.
#[derive(Clone, Copy, Debug, PartialEq, Eq)]
pub struct Counter {
    pub greatest: u8,
    pub initial: u8,
}

// The atoms that hold while the automaton stands in a location.
#[derive(Clone, Copy, Debug, PartialEq, Eq)]
pub struct Invariant {
    pub atoms: [Atom; Model::ATOMS],
}

// An edge. `label` names its event; 0 is private. Slot i of `updates` is for counter i, slot i of `resets` for clock i. `order` has
// the counters that are set, in the order in which their updates happen; the slots after them are 0.
#[derive(Clone, Copy, Debug, PartialEq, Eq)]
pub struct Edge {
    pub source: u8,
    pub target: u8,
    pub label: u8,
    pub guard: [Atom; Model::ATOMS],
    pub updates: [Update; Model::COUNTERS],
    pub order: [u8; Model::COUNTERS],
    pub resets: [ClockUpdate; Model::CLOCKS],
}

// A model. `locations`, `clocks`, `vars` and `used` say how many locations, clocks, counters and edges there are;
// the slots from there on are blank.
#[derive(Clone, Copy, Debug, PartialEq, Eq)]
pub struct Model {
    pub locations: u8,
    pub initial: u8,
    pub target: u8,
    pub clocks: u8,
    pub vars: u8,
    pub counters: [Counter; Model::COUNTERS],
    pub invariants: [Invariant; Model::LOCATIONS],
    pub used: u8,
    pub edges: [Edge; Model::EDGES],
}

// A state: the location, and what each counter and each clock shows. A slot that is not declared shows 0.
#[repr(C)]
#[derive(Clone, Copy, Debug, PartialEq, Eq)]
pub struct State {
    pub location: u8,
    pub counters: [u8; Model::COUNTERS],
    pub clocks: [u8; Model::CLOCKS],
}

// M, S and H: the ceiling, and the lengths of a state block and of a choice block.
#[derive(Clone, Copy, Debug, PartialEq, Eq)]
pub struct Totals {
    pub ceiling: usize,
    pub state: usize,
    pub choices: usize,
}

impl Model {
    pub const LOCATIONS: usize = 16;

    pub const CLOCKS: usize = 4;

    pub const COUNTERS: usize = 4;

    pub const EDGES: usize = 32;

    // Atoms of one invariant or guard.
    pub const ATOMS: usize = 4;

    // Steps of a run, and the greatest bound.
    pub const STEPS: usize = 64;

    // The greatest constant that a clock is compared with.
    pub const CLOCK_CONSTANT: u8 = 30;

    // The greatest value of a counter, constant for one, and size of an offset.
    pub const COUNTER_VALUE: u8 = 31;

    // The greatest label of an edge.
    pub const LABEL: u8 = 15;

    // One location, initial and target 0, and nothing else.
    pub fn blank() -> Self
        ensures { result ≡ blank_model }
    {
        let invariant = Invariant {
            atoms: [Atom::Blank; Model::ATOMS],
        };
        let edge = Edge {
            source: 0,
            target: 0,
            label: 0,
            guard: [Atom::Blank; Model::ATOMS],
            updates: [Update::Keep; Model::COUNTERS],
            order: [0; Model::COUNTERS],
            resets: [ClockUpdate::Unchanged; Model::CLOCKS],
        };
        let counter = Counter {
            greatest: 0,
            initial: 0,
        };
        Model {
            locations: 1,
            initial: 0,
            target: 0,
            clocks: 0,
            vars: 0,
            counters: [counter; Model::COUNTERS],
            invariants: [invariant; Model::LOCATIONS],
            used: 0,
            edges: [edge; Model::EDGES],
        }
    }
}
