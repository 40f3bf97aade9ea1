// Whether a record, and a state of it, is well formed.
#![tactic(auto)]

ghost use Rattle.std.specs.Prelude.{◌≡◌, cond, ◌<◌, ltb};
ghost use Rattle.model.specs.Automaton.{listed};
ghost use Rattle.form.specs.BoundCheck.{list_refusal_number, bound_checked};
ghost use Rattle.model.specs.Form.{atom_formed, is_blank, no_gap, each_formed, filled_from_first, atoms_formed, counter_formed, is_blank_counter, counter_slot_formed, counters_formed, invariants_formed, update_formed, clock_update_formed, update_slot_formed, updates_formed, order_slot_formed, order_formed, reset_slot_formed, resets_formed, edge_formed, is_blank_edge, edges_formed, head_formed, well_formed, slot_in_group, counters_in_group, clocks_in_group, state_formed};

use model::updates::place_in;
use model::{Atom, ClockUpdate, Counter, Edge, Model, Relation, State, Update};

fn atom_formed(a: Atom, clocks: u8, vars: u8) -> bool
    ensures { result ≡ atom_formed clocks vars a }
{
    match a {
        Atom::Blank => true,
        Atom::OnClock {
            clock,
            relation,
            constant,
        } => {
            clock < clocks && constant <= Model::CLOCK_CONSTANT && relation != Relation::NotEqual
        }
        Atom::OnCounter {
            counter,
            constant,
            ..
        } => counter < vars && constant <= Model::COUNTER_VALUE,
    }
}

// Whether a slot holds no atom.
pub fn is_blank(a: Atom) -> bool
    ensures { result ≡ is_blank a }
{
    matches!(a, Atom::Blank)
}

// No atom stands after a blank slot.
fn no_gap(before: Atom, after: Atom) -> bool
    ensures { result ≡ no_gap before after }
{
    !is_blank(before) || is_blank(after)
}

fn each_formed(atoms: [Atom; Model::ATOMS], clocks: u8, vars: u8) -> bool
    ensures { result ≡ each_formed clocks vars atoms }
{
    atoms.iter().all(|atom| atom_formed(*atom, clocks, vars))
}

fn filled_from_first(atoms: [Atom; Model::ATOMS]) -> bool
    ensures { result ≡ filled_from_first atoms }
{
    let [first, second, third, fourth] = atoms;
    no_gap(first, second) && no_gap(second, third) && no_gap(third, fourth)
}

fn atoms_formed(atoms: [Atom; Model::ATOMS], clocks: u8, vars: u8) -> bool
    ensures { result ≡ atoms_formed clocks vars atoms }
{
    each_formed(atoms, clocks, vars) && filled_from_first(atoms)
}

fn counter_formed(c: Counter) -> bool
    ensures { result ≡ counter_formed c }
{
    c.greatest <= Model::COUNTER_VALUE && c.initial <= c.greatest
}

fn is_blank_counter(c: Counter) -> bool
    ensures { result ≡ is_blank_counter c }
{
    c.greatest == 0 && c.initial == 0
}

fn counter_slot_formed(c: Counter, i: usize, vars: u8) -> bool
    ensures { result ≡ counter_slot_formed vars c i }
{
    if i < vars as usize {
        counter_formed(c)
    } else {
        is_blank_counter(c)
    }
}

fn counters_formed(counters: [Counter; Model::COUNTERS], vars: u8) -> bool
    ensures { result ≡ counters_formed vars counters }
{
    counters
        .iter()
        .enumerate()
        .all(|(i, counter)| counter_slot_formed(*counter, i, vars))
}

fn invariant_slot_formed(atoms: [Atom; Model::ATOMS], l: usize, locations: u8, clocks: u8) -> bool
    ensures { result ≡ cond (ltb l locations) (atoms_formed clocks 0 atoms) (atoms_formed 0 0 atoms) }
{
    if l < locations as usize {
        atoms_formed(atoms, clocks, 0)
    } else {
        atoms_formed(atoms, 0, 0)
    }
}

fn invariants_formed(m: Model) -> bool
    ensures { result ≡ invariants_formed m }
{
    m.invariants.iter().enumerate().all(|(l, invariant)| invariant_slot_formed(
        invariant.atoms,
        l,
        m.locations,
        m.clocks,
    ))
}

fn update_formed(u: Update, vars: u8) -> bool
    ensures { result ≡ update_formed vars u }
{
    match u {
        Update::Keep => true,
        Update::Constant(c) => c <= Model::COUNTER_VALUE,
        Update::Sum { source, offset } => {
            source < vars && new_values::amount(offset) <= Model::COUNTER_VALUE
        }
    }
}

fn update_slot_formed(u: Update, i: usize, vars: u8) -> bool
    ensures { result ≡ update_slot_formed vars u i }
{
    if i < vars as usize {
        update_formed(u, vars)
    } else {
        u.is_keep()
    }
}

fn updates_formed(slots: [Update; Model::COUNTERS], vars: u8) -> bool
    ensures { result ≡ updates_formed vars slots }
{
    slots
        .iter()
        .enumerate()
        .all(|(i, update)| update_slot_formed(*update, i, vars))
}

// Slot `k` of the order, of which the first `n` are used.
fn order_slot_formed(e: Edge, n: usize, k: usize) -> bool
    requires { (n ≡ listed e) × (k < 4) }
    ensures { result ≡ order_slot_formed e k }
{
    let counter = e.order[k];
    if k >= n {
        return counter == 0;
    }
    match e.updates.get(counter as usize) {
        Some(update) => !update.is_keep() && place_in(e.order, counter) == k,
        None => false,
    }
}

fn order_formed(e: Edge) -> bool
    ensures { result ≡ order_formed e }
{
    let n = e.listed();
    (0..Model::COUNTERS).all(|k| order_slot_formed(e, n, k))
}

fn clock_update_formed(u: ClockUpdate, clocks: u8) -> bool
    ensures { result ≡ clock_update_formed clocks u }
{
    match u {
        ClockUpdate::Unchanged | ClockUpdate::Reset => true,
        ClockUpdate::Copy { source } => source < clocks,
    }
}

fn reset_slot_formed(u: ClockUpdate, i: usize, clocks: u8) -> bool
    ensures { result ≡ reset_slot_formed clocks u i }
{
    if i < clocks as usize {
        clock_update_formed(u, clocks)
    } else {
        u == ClockUpdate::Unchanged
    }
}

fn resets_formed(slots: [ClockUpdate; Model::CLOCKS], clocks: u8) -> bool
    ensures { result ≡ resets_formed clocks slots }
{
    slots
        .iter()
        .enumerate()
        .all(|(i, update)| reset_slot_formed(*update, i, clocks))
}

fn edge_formed(e: Edge, locations: u8, clocks: u8, vars: u8) -> bool
    ensures { result ≡ edge_formed locations clocks vars e }
{
    e.source < locations
        && e.target < locations
        && e.label <= Model::LABEL
        && atoms_formed(e.guard, clocks, vars)
        && updates_formed(e.updates, vars)
        && order_formed(e)
        && resets_formed(e.resets, clocks)
}

// Label 0, and what is formed where nothing but location 0 is declared.
fn is_blank_edge(e: Edge) -> bool
    ensures { result ≡ is_blank_edge e }
{
    e.label == 0 && edge_formed(e, 1, 0, 0)
}

fn edge_slot_formed(edge: Edge, e: usize, used: u8, locations: u8, clocks: u8, vars: u8) -> bool
    ensures { result ≡ cond (ltb e used) (edge_formed locations clocks vars edge) (is_blank_edge edge) }
{
    if e < used as usize {
        edge_formed(edge, locations, clocks, vars)
    } else {
        is_blank_edge(edge)
    }
}

fn edges_formed(m: Model) -> bool
    ensures { result ≡ edges_formed m }
{
    m.edges.iter().enumerate().all(|(e, edge)| edge_slot_formed(
        *edge,
        e,
        m.used,
        m.locations,
        m.clocks,
        m.vars,
    ))
}

fn head_formed(m: Model) -> bool
    ensures { result ≡ head_formed m }
{
    1 <= m.locations
        && m.locations <= Model::LOCATIONS as u8
        && m.initial < m.locations
        && m.target < m.locations
        && m.clocks <= Model::CLOCKS as u8
        && m.vars <= Model::COUNTERS as u8
        && m.used <= Model::EDGES as u8
}

// Refusal 20 is for a record of which this is false.
pub fn well_formed(m: Model) -> bool
    ensures { result ≡ well_formed m }
{
    head_formed(m) && counters_formed(m.counters, m.vars) && invariants_formed(m) && edges_formed(m)
}

// Why a record and a bound are refused.
#[derive(Clone, Copy, Debug, PartialEq, Eq)]
pub enum ListRefusal {
    NotWellFormed = 20,
    BoundTooLarge = 21,
}

impl ListRefusal {
    pub fn number(self) -> u8
        ensures { result ≡ list_refusal_number self }
    {
        self as u8
    }
}

// A record and a bound of a list: 20, 21.
pub fn check_bound(m: Model, bound: usize) -> Result<(), ListRefusal>
    ensures { result ≡ bound_checked m bound }
{
    if !well_formed(m) {
        return Err(ListRefusal::NotWellFormed);
    }
    if bound > Model::STEPS {
        return Err(ListRefusal::BoundTooLarge);
    }
    Ok(())
}

// A declared slot shows 0 to `greatest`, any other 0.
fn slot_in_group(declared: u8, greatest: usize, v: u8, i: usize) -> bool
    ensures { result ≡ slot_in_group declared greatest v i }
{
    if i < declared as usize {
        v as usize <= greatest
    } else {
        v == 0
    }
}

fn counters_in_group(s: State, vars: u8, counters: [Counter; Model::COUNTERS]) -> bool
    ensures { result ≡ counters_in_group vars counters s }
{
    (0..Model::COUNTERS).all(|i| slot_in_group(
        vars,
        counters[i].greatest as usize,
        s.counters[i],
        i,
    ))
}

fn clocks_in_group(s: State, clocks: u8, top: usize) -> bool
    ensures { result ≡ clocks_in_group clocks top s }
{
    s.clocks
        .iter()
        .enumerate()
        .all(|(i, value)| slot_in_group(clocks, top, *value, i))
}

// Refusal 10 is for a state of which this is false.
pub fn state_formed(m: Model, s: State) -> bool
    ensures { result ≡ state_formed m s }
{
    s.location < m.locations
        && counters_in_group(s, m.vars, m.counters)
        && clocks_in_group(s, m.clocks, m.ceiling())
}
