// What two models join: the second's clocks and counters are shifted up, and the first model's part stands first.
ghost use Rattle.std.specs.Prelude.{◌≡◌, ℕ, ◌<◌, ◌≤◌, ◌-◌, T, ltb, cond};
ghost use Rattle.model.specs.Indexed.{list_below};
ghost use Rattle.model.specs.Automaton.{listed};
ghost use Rattle.model.specs.Form.{atom_formed, each_formed, update_formed, updates_formed, order_formed, clock_update_formed, resets_formed, edge_formed};
ghost use Rattle.compose.specs.Joined.{shifted_atom, shifted_update, shifted_reset, atom_count, joined_atoms, joined_updates, joined_place, joined_order, joined_resets, standing, joined_edge};

use crate::formed::Formed;
use form::is_blank;
use model::{Atom, ClockUpdate, Edge, Model, Update};
use std::array;

// The first's slots before slot `from`, then the second's.
pub(crate) fn joined<V, F: Fn(usize) -> V, G: Fn(usize) -> V, const N: usize>(
    from: usize,
    first: F,
    second: G,
) -> [V; N]
    requires first { (k : ℕ) → k < N → F.pre first k }
    requires second { (k : ℕ) → k < N → G.pre second k }
    ensures { (f g : ℕ → V) → ((k : ℕ) (x : V) → k < N → F.post first k x → x ≡ f k) → ((k : ℕ) (x : V) → k < N → G.post second k x → x ≡ g k) → result ≡ list_below (λ k. cond (ltb k from) (f k) (g (k - from))) N }
{
    array::from_fn(|k| { if k < from { first(k) } else { second(k - from) } })
}

// How many atoms an invariant or a guard has.
pub(crate) fn atom_count(atoms: [Atom; Model::ATOMS]) -> usize
    ensures { (result ≡ atom_count atoms) × (result ≤ 4) }
{
    atoms.iter().filter(|atom| !is_blank(**atom)).count()
}

// Standing still in a location.
pub(crate) fn standing(location: u8) -> Edge
    ensures { result ≡ standing location }
{
    Edge {
        source: location,
        target: location,
        label: 0,
        guard: [Atom::Blank; Model::ATOMS],
        updates: [Update::Keep; Model::COUNTERS],
        order: [0; Model::COUNTERS],
        resets: [ClockUpdate::Unchanged; Model::CLOCKS],
    }
}

// What the second model's numbers are shifted by, the first's clocks and counters, and how many locations the second has.
#[derive(Clone, Copy)]
pub(crate) struct Shift {
    pub(crate) clocks: u8,
    pub(crate) vars: u8,
    pub(crate) locations: u8,
    ghost clocks_le: { clocks ≤ 4 },
    ghost vars_le: { vars ≤ 4 },
    ghost locations_le: { locations ≤ 16 },
}

impl Shift {
    pub(crate) fn new(a: &Formed, b: &Formed) -> Shift
        ensures { (result.clocks ≡ a.now.model.clocks) × (result.vars ≡ a.now.model.vars) × (result.locations ≡ b.now.model.locations) }
    {
        Shift {
            clocks: a.model.clocks,
            vars: a.model.vars,
            locations: b.model.locations,
        }
    }

    fn atom(self, a: Atom) -> Atom
        requires { T (atom_formed 4 4 a) }
        ensures { result ≡ shifted_atom self.clocks self.vars a }
    {
        match a {
            Atom::Blank => Atom::Blank,
            Atom::OnClock {
                clock,
                relation,
                constant,
            } => Atom::OnClock {
                clock: self.clocks + clock,
                relation,
                constant,
            },
            Atom::OnCounter {
                counter,
                relation,
                constant,
            } => Atom::OnCounter {
                counter: self.vars + counter,
                relation,
                constant,
            },
        }
    }

    // The atoms of two invariants or of two guards.
    pub(crate) fn atoms(
        self,
        first: [Atom; Model::ATOMS],
        second: [Atom; Model::ATOMS],
    ) -> [Atom; Model::ATOMS]
        requires { T (each_formed 4 4 second) }
        ensures { result ≡ joined_atoms self.clocks self.vars first second }
    {
        joined(atom_count(first), |k| first[k], |k| self.atom(second[k]))
    }

    fn update(self, u: Update) -> Update
        requires { T (update_formed 4 u) }
        ensures { result ≡ shifted_update self.vars u }
    {
        match u {
            Update::Keep => Update::Keep,
            Update::Constant(c) => Update::Constant(c),
            Update::Sum { source, offset } => Update::Sum {
                source: self.vars + source,
                offset,
            },
        }
    }

    fn updates(self, e: Edge, f: Edge) -> [Update; Model::COUNTERS]
        requires { T (updates_formed 4 f.updates) }
        ensures { result ≡ joined_updates self.vars e f }
    {
        joined(
            self.vars as usize,
            |i| e.updates[i],
            |i| self.update(f.updates[i]),
        )
    }

    // Slot `k` of the order, where the edges list `n` and `m` updates.
    fn place(self, e: Edge, f: Edge, n: usize, m: usize, k: usize) -> u8
        requires { T (order_formed f) × (n ≡ listed e) × (m ≡ listed f) × (k < 4) }
        ensures { result ≡ joined_place self.vars e f k }
    {
        if k < n {
            e.order[k]
        } else if k < n + m {
            self.vars + f.order[k - n]
        } else {
            0
        }
    }

    fn order(self, e: Edge, f: Edge) -> [u8; Model::COUNTERS]
        requires { T (order_formed f) }
        ensures { result ≡ joined_order self.vars e f }
    {
        let n = e.listed();
        let m = f.listed();
        array::from_fn(|k| self.place(e, f, n, m, k))
    }

    fn reset(self, u: ClockUpdate) -> ClockUpdate
        requires { T (clock_update_formed 4 u) }
        ensures { result ≡ shifted_reset self.clocks u }
    {
        match u {
            ClockUpdate::Unchanged => ClockUpdate::Unchanged,
            ClockUpdate::Reset => ClockUpdate::Reset,
            ClockUpdate::Copy { source } => ClockUpdate::Copy {
                source: self.clocks + source,
            },
        }
    }

    fn resets(self, e: Edge, f: Edge) -> [ClockUpdate; Model::CLOCKS]
        requires { T (resets_formed 4 f.resets) }
        ensures { result ≡ joined_resets self.clocks e f }
    {
        joined(
            self.clocks as usize,
            |i| e.resets[i],
            |i| self.reset(f.resets[i]),
        )
    }

    // Two edges as one.
    pub(crate) fn edge(self, label: u8, e: Edge, f: Edge) -> Edge
        requires { T (edge_formed 16 4 4 e) × T (edge_formed 16 4 4 f) }
        ensures { result ≡ joined_edge self.clocks self.vars self.locations label e f }
    {
        Edge {
            source: e.source * self.locations + f.source,
            target: e.target * self.locations + f.target,
            label,
            guard: self.atoms(e.guard, f.guard),
            updates: self.updates(e, f),
            order: self.order(e, f),
            resets: self.resets(e, f),
        }
    }
}
