// The models that the worked cases use.
#![tactic(auto)]

ghost use Rattle.std.specs.Prelude.{◌≡◌};
ghost use Rattle.samples.specs.Models.{on_clock, edge, model_a, waiting_a, model_b, full_edge, full_model};

use model::{Atom, ClockUpdate, Counter, Edge, Invariant, Model, Relation, Update};

// Four slots of which the first holds an atom on a clock.
pub fn on_clock(clock: u8, relation: Relation, constant: u8) -> [Atom; Model::ATOMS]
    ensures { result ≡ on_clock clock relation constant }
{
    let atom = Atom::OnClock {
        clock,
        relation,
        constant,
    };
    [atom, Atom::Blank, Atom::Blank, Atom::Blank]
}

// A private edge that sets counter 0 and clock 0 only.
pub fn edge_of(
    source: u8,
    target: u8,
    guard: [Atom; Model::ATOMS],
    update: Update,
    reset: ClockUpdate,
) -> Edge
    ensures { result ≡ edge source target guard update reset }
{
    let keep = Update::Keep;
    let unchanged = ClockUpdate::Unchanged;
    Edge {
        source,
        target,
        label: 0,
        guard,
        updates: [update, keep, keep, keep],
        order: [0; Model::COUNTERS],
        resets: [reset, unchanged, unchanged, unchanged],
    }
}

#[tactic(auto, unfolding(crate::specs::Models::model_a, model::specs::Record::blank_model))]
pub fn model_a() -> Model
    ensures { result ≡ model_a }
{
    let none = [Atom::Blank; Model::ATOMS];
    let mut m = Model {
        locations: 2,
        target: 1,
        used: 1,
        ..Model::blank()
    };
    m.edges[0] = edge_of(0, 1, none, Update::Keep, ClockUpdate::Unchanged);
    m
}

// A with one clock and x0>=1 as invariant of location 0.
#[tactic(auto, unfolding(crate::specs::Models::model_a, crate::specs::Models::waiting_a))]
pub fn waiting_a() -> Model
    ensures { result ≡ waiting_a }
{
    let mut m = Model {
        clocks: 1,
        ..model_a()
    };
    m.invariants[0] = Invariant {
        atoms: on_clock(0, Relation::GreaterEqual, 1),
    };
    m
}

#[tactic(auto, unfolding(crate::specs::Models::model_b, model::specs::Record::blank_model))]
pub fn model_b() -> Model
    ensures { result ≡ model_b }
{
    let none = [Atom::Blank; Model::ATOMS];
    let mut m = Model {
        locations: 4,
        target: 3,
        clocks: 1,
        vars: 1,
        used: 3,
        ..Model::blank()
    };
    m.counters[0] = Counter {
        greatest: 1,
        initial: 0,
    };
    m.invariants[1] = Invariant {
        atoms: on_clock(0, Relation::LessEqual, 3),
    };
    m.edges[0] = edge_of(0, 1, none, Update::Keep, ClockUpdate::Reset);
    let one_more = Update::Sum {
        source: 0,
        offset: 1,
    };
    let early = on_clock(0, Relation::LessEqual, 2);
    m.edges[1] = edge_of(1, 2, early, one_more, ClockUpdate::Unchanged);
    let late = on_clock(0, Relation::GreaterEqual, 3);
    m.edges[2] = edge_of(1, 3, late, Update::Keep, ClockUpdate::Unchanged);
    m
}

// Source, target, label and atoms, updates and resets at their limits.
fn full_edge() -> Edge
    ensures { result ≡ full_edge }
{
    let test = Atom::OnCounter {
        counter: 3,
        relation: Relation::Equal,
        constant: Model::COUNTER_VALUE,
    };
    Edge {
        source: 15,
        target: 15,
        label: Model::LABEL,
        guard: [test; Model::ATOMS],
        updates: [Update::Constant(Model::COUNTER_VALUE); Model::COUNTERS],
        order: [3, 0, 1, 2],
        resets: [ClockUpdate::Reset; Model::CLOCKS],
    }
}

// A model at every limit.
#[tactic(auto, unfolding(crate::specs::Models::full_model))]
pub fn full_model() -> Model
    ensures { result ≡ full_model }
{
    let atom = Atom::OnClock {
        clock: 3,
        relation: Relation::LessEqual,
        constant: Model::CLOCK_CONSTANT,
    };
    let counter = Counter {
        greatest: Model::COUNTER_VALUE,
        initial: Model::COUNTER_VALUE,
    };
    Model {
        locations: Model::LOCATIONS as u8,
        initial: 15,
        target: 15,
        clocks: Model::CLOCKS as u8,
        vars: Model::COUNTERS as u8,
        counters: [counter; Model::COUNTERS],
        invariants: [Invariant {
            atoms: [atom; Model::ATOMS],
        }; Model::LOCATIONS],
        used: Model::EDGES as u8,
        edges: [full_edge(); Model::EDGES],
    }
}
