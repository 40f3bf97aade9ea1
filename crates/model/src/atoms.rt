// Whether atoms hold in a state.
ghost use Rattle.std.specs.Prelude.{◌≡◌, get_or};
ghost use Rattle.model.specs.Automaton.{meets, atom_holds, all_hold, invariant_holds, clock_constant, greatest_constant};

use crate::{Atom, Model, Relation, State};

impl Relation {
    pub fn holds(self, value: u8, constant: u8) -> bool
        ensures { result ≡ meets self value constant }
    {
        match self {
            Relation::Less => value < constant,
            Relation::LessEqual => value <= constant,
            Relation::Equal => value == constant,
            Relation::GreaterEqual => value >= constant,
            Relation::Greater => value > constant,
            Relation::NotEqual => value != constant,
        }
    }
}

// What stands in slot `at`, and 0 past the end.
pub(crate) fn slot(values: [u8; Model::COUNTERS], at: u8) -> u8
    ensures { result ≡ get_or values at 0 }
{
    values.get(at as usize).copied().unwrap_or(0)
}

impl Atom {
    // The constant that the atom compares a clock with, and 0 where it compares none.
    fn clock_constant(self) -> u8
        ensures { result ≡ clock_constant self }
    {
        match self {
            Atom::OnClock { constant, .. } => constant,
            Atom::Blank | Atom::OnCounter { .. } => 0,
        }
    }

    fn holds(self, s: State) -> bool
        ensures { result ≡ atom_holds s self }
    {
        match self {
            Atom::Blank => true,
            Atom::OnClock {
                clock,
                relation,
                constant,
            } => relation.holds(slot(s.clocks, clock), constant),
            Atom::OnCounter {
                counter,
                relation,
                constant,
            } => relation.holds(slot(s.counters, counter), constant),
        }
    }
}

pub(crate) fn greatest_constant(atoms: [Atom; Model::ATOMS]) -> u8
    ensures { result ≡ greatest_constant atoms }
{
    atoms
        .iter()
        .fold(0, |most, atom| most.max(atom.clock_constant()))
}

pub(crate) fn all_hold(atoms: [Atom; Model::ATOMS], s: State) -> bool
    ensures { result ≡ all_hold s atoms }
{
    atoms.iter().all(|atom| atom.holds(s))
}

impl Model {
    // The invariant of the state's location.
    pub fn invariant_holds(self, s: State) -> bool
        ensures { result ≡ invariant_holds self s }
    {
        match self.invariants.get(s.location as usize) {
            Some(invariant) => all_hold(invariant.atoms, s),
            None => true,
        }
    }
}
