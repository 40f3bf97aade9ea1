// Changes to a record: any byte in any field.
use model::{Atom, ClockUpdate, Counter, Invariant, Model, Relation, Update};

// 0 n: a model to begin with.
fn base(n: u8) -> Model {
    match n {
        1 => samples::model_a(),
        2 => samples::waiting_a(),
        3 => samples::model_b(),
        4 => samples::full_model(),
        _ => Model::blank(),
    }
}

// 1 field number: one of the numbers at the head of the record.
fn head(mut m: Model, field: u8, n: u8) -> Model {
    match field {
        0 => m.locations = n,
        1 => m.initial = n,
        2 => m.target = n,
        3 => m.clocks = n,
        4 => m.vars = n,
        _ => m.used = n,
    }
    m
}

fn relation(n: u8) -> Relation {
    match n {
        0 => Relation::Less,
        1 => Relation::LessEqual,
        2 => Relation::Equal,
        3 => Relation::GreaterEqual,
        4 => Relation::Greater,
        _ => Relation::NotEqual,
    }
}

// sort index relation constant: no atom, or one on a clock or on a counter.
fn atom(sort: u8, index: u8, relate: u8, constant: u8) -> Atom {
    let relation = relation(relate);
    match sort {
        0 => Atom::Blank,
        1 => Atom::OnClock {
            clock: index,
            relation,
            constant,
        },
        _ => Atom::OnCounter {
            counter: index,
            relation,
            constant,
        },
    }
}

// -32 to 32, then numbers far outside the range of an offset.
const OFFSETS: [i8; 69] = [
    -32, -31, -30, -29, -28, -27, -26, -25, -24, -23, -22, -21, -20, -19, -18, -17, -16, -15, -14,
    -13, -12, -11, -10, -9, -8, -7, -6, -5, -4, -3, -2, -1, 0, 1, 2, 3, 4, 5, 6, 7, 8, 9, 10, 11,
    12, 13, 14, 15, 16, 17, 18, 19, 20, 21, 22, 23, 24, 25, 26, 27, 28, 29, 30, 31, 32, -128, -33,
    33, 127,
];

// sort number offset: keep, a constant, or a source plus an offset, by its index.
fn update(sort: u8, n: u8, raised: u8) -> Update {
    let offset = OFFSETS[(raised % 69) as usize];
    match sort {
        0 => Update::Keep,
        1 => Update::Constant(n),
        _ => Update::Sum { source: n, offset },
    }
}

// sort source: unchanged, a reset, or a copy of a clock.
fn reset(sort: u8, source: u8) -> ClockUpdate {
    match sort {
        0 => ClockUpdate::Unchanged,
        1 => ClockUpdate::Reset,
        _ => ClockUpdate::Copy { source },
    }
}

// The record after one change, by its number; `v` holds the numbers of the line.
pub(crate) fn changed(mut m: Model, v: [u8; 80]) -> Model {
    let i = (v[1] % 32) as usize;
    let k = (v[2] % 4) as usize;
    match v[0] {
        0 => m = base(v[1]),
        1 => m = head(m, v[1], v[2]),
        // i greatest initial
        2 => {
            m.counters[i % 4] = Counter {
                greatest: v[2],
                initial: v[3],
            }
        }
        // l k atom
        3 => m.invariants[i % 16].atoms[k] = atom(v[3], v[4], v[5], v[6]),
        // e source target
        4 => {
            m.edges[i].source = v[2];
            m.edges[i].target = v[3];
        }
        // e k atom
        5 => m.edges[i].guard[k] = atom(v[3], v[4], v[5], v[6]),
        // e k update
        6 => m.edges[i].updates[k] = update(v[3], v[4], v[5]),
        // e k reset
        7 => m.edges[i].resets[k] = reset(v[3], v[4]),
        // e k counter
        8 => m.edges[i].order[k] = v[3],
        // e label
        _ => m.edges[i].label = v[2],
    }
    m
}
