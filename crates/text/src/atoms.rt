// The value of an inv or when line.
ghost use Rattle.std.specs.Prelude.{◌≡◌};
ghost use mathlib.Core.List.{map};
ghost use Rattle.text.specs.bytes.Bytes.{items_of};
ghost use Rattle.text.specs.atoms.Atoms.{relation_at, named_atom, atom_of, item_of, is_outside, is_undeclared, AtomsOf};
ghost use Rattle.text.specs.atoms.OnePass.{stored_atom, absorbed};

use crate::bytes;
use crate::bytes::{Faults, LineFault};
use model::{Atom, Model, Relation};

// The relation that some bytes begin with, and how many of them it takes.
#[derive(Clone, Copy, Debug, PartialEq, Eq)]
pub(crate) struct RelationRead {
    relation: Relation,
    width: usize,
}

// One item of the line, if it has the form of one.
#[derive(Clone, Copy, Debug, PartialEq, Eq)]
pub enum AtomRead {
    ClockAtom {
        clock: u16,
        relation: Relation,
        constant: u16,
    },
    CounterAtom {
        counter: u16,
        relation: Relation,
        constant: u16,
    },
}

// What one pass over the items collects.
#[derive(Clone, Copy, Debug, PartialEq, Eq)]
pub(crate) struct AtomsRead {
    faults: Faults,
    count: usize,
    atoms: [Atom; Model::ATOMS],
}

fn relation(a: u8, b: u8) -> Option<RelationRead>
    ensures { result ≡ relation_at a b }
{
    let (relation, width) = match (a, b) {
        (b'<', b'=') => (Relation::LessEqual, 2),
        (b'<', _) => (Relation::Less, 1),
        (b'>', b'=') => (Relation::GreaterEqual, 2),
        (b'>', _) => (Relation::Greater, 1),
        (b'=', _) => (Relation::Equal, 1),
        (b'!', b'=') => (Relation::NotEqual, 2),
        _ => return None,
    };
    Some(RelationRead { relation, width })
}

// x names a clock, with which != is not of the form, and v a counter.
fn named_atom(name: u8, i: u16, relation: Relation, constant: u16) -> Option<AtomRead>
    ensures { result ≡ named_atom name i relation constant }
{
    match (name, relation) {
        (b'x', Relation::NotEqual) => None,
        (b'x', _) => Some(AtomRead::ClockAtom {
            clock: i,
            relation,
            constant,
        }),
        (b'v', _) => Some(AtomRead::CounterAtom {
            counter: i,
            relation,
            constant,
        }),
        _ => None,
    }
}

// One item: x or v, a number, a relation, a number.
fn atom(s: &[u8]) -> Option<AtomRead>
    ensures { result ≡ atom_of s.now }
{
    let (index, rest) = bytes::leading(bytes::tail(s, 1));
    let index = index?;
    let sign = relation(bytes::byte(rest, 0), bytes::byte(rest, 1))?;
    let constant = bytes::number(bytes::tail(rest, sign.width))?;
    named_atom(bytes::byte(s, 0), index, sign.relation, constant)
}

// One item of a line that may name counters, or may not.
fn item(s: &[u8], counters: bool) -> Option<AtomRead>
    ensures { result ≡ item_of counters s.now }
{
    match atom(s) {
        Some(AtomRead::CounterAtom { .. }) if !counters => None,
        item => item,
    }
}

fn is_outside(item: Option<AtomRead>) -> bool
    ensures { result ≡ is_outside item }
{
    match item {
        None => false,
        Some(AtomRead::ClockAtom { constant, .. }) => (Model::CLOCK_CONSTANT as u16) < constant,
        Some(AtomRead::CounterAtom { constant, .. }) => (Model::COUNTER_VALUE as u16) < constant,
    }
}

fn is_undeclared(item: Option<AtomRead>, clocks: u8, vars: u8) -> bool
    ensures { result ≡ is_undeclared clocks vars item }
{
    match item {
        None => false,
        Some(AtomRead::ClockAtom { clock, .. }) => (clocks as u16) <= clock,
        Some(AtomRead::CounterAtom { counter, .. }) => (vars as u16) <= counter,
    }
}

fn stored(item: Option<AtomRead>) -> Atom
    ensures { result ≡ stored_atom item }
{
    match item {
        None => Atom::Blank,
        Some(
            AtomRead::ClockAtom {
                clock,
                relation,
                constant,
            },
        ) => Atom::OnClock {
            clock: bytes::narrow(clock),
            relation,
            constant: bytes::narrow(constant),
        },
        Some(
            AtomRead::CounterAtom {
                counter,
                relation,
                constant,
            },
        ) => Atom::OnCounter {
            counter: bytes::narrow(counter),
            relation,
            constant: bytes::narrow(constant),
        },
    }
}

impl AtomsRead {
    const NONE: AtomsRead = AtomsRead {
        faults: Faults::NONE,
        count: 0,
        atoms: [Atom::Blank; Model::ATOMS],
    };

    // One more item.
    fn absorb(self, clocks: u8, vars: u8, item: Option<AtomRead>) -> AtomsRead
        ensures { result ≡ absorbed clocks vars self item }
    {
        let f = self.faults;
        let mut next = self;
        next.faults = Faults {
            malformed: f.malformed | item.is_none(),
            crowded: f.crowded | (Model::ATOMS <= self.count),
            outside: f.outside | is_outside(item),
            undeclared: f.undeclared | is_undeclared(item, clocks, vars),
            ..f
        };
        bytes::put(&mut next.atoms, self.count, stored(item));
        next.count = bytes::next_count(Model::ATOMS, self.count);
        next
    }
}

// The value of an inv line, which may not name counters, or of a when line.
pub fn atom_value(
    v: &[u8],
    clocks: u8,
    vars: u8,
    counters: bool,
) -> Result<[Atom; Model::ATOMS], LineFault>
    ensures { AtomsOf clocks vars (map (item_of counters) (items_of v.now)) result }
{
    let read = bytes::absorbed(v, AtomsRead::NONE, |read, s| {
        read.absorb(clocks, vars, item(s, counters))
    });
    read.faults.check()?;
    Ok(read.atoms)
}
