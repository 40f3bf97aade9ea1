// Two models that a record may hold as one: the composed model, and what a step of it is in each of them.
ghost use Rattle.std.specs.Prelude.{◌≡◌, ◌<◌, ◌≤◌, true, Some, IfOk, IfErr, get_or, replicate};
ghost use Rattle.model.specs.Indexed.{list_below, maybe};
ghost use Rattle.model.specs.Record.{blank_invariant};
ghost use Rattle.compose.specs.Moves.{moves, no_moves, added, placed};
ghost use Rattle.compose.specs.Composed.{fits, joined_counters, joined_invariants, composed_edge, composed};
ghost use Rattle.compose.specs.ComposeCall.{refusal};
ghost use Rattle.compose.specs.Parts.{edge_byte, stays, steps_report, parts_told};

use crate::fit::fits;
use crate::formed::Formed;
use crate::joined::{Shift, joined, standing};
use crate::moves::{Moves, edge_of, moves_of};
use crate::{ComposeRefusal, PartSteps, PartsRefusal};
use model::{Atom, Counter, Edge, Invariant, Model};
use std::array;

// Both models and their moves.
#[derive(Clone, Copy)]
pub(crate) struct Pair {
    pub(crate) a: Formed,
    pub(crate) b: Formed,
    pub(crate) list: Moves,
    ghost held: { fits a.model b.model ≡ true },
    ghost listed: { list ≡ added no_moves (moves a.model b.model) },
}

// The step byte of a part's edge, under the part's ceiling, and 255 where the part stands still.
fn edge_byte(edge: Option<u8>, top: u8) -> u8
    requires { (top ≤ 31) × (maybe edge 0 (λ e. e) < 32) }
    ensures { result ≡ stays (edge_byte top edge) }
{
    edge.map_or(255, |e| top + 1 + e)
}

impl Pair {
    // The two, if both are well formed and a record may hold the composed model: 20, 38.
    pub(crate) fn new(a: Model, b: Model) -> Result<Pair, ComposeRefusal>
        ensures ok { IfOk result (λ p. (p.a.model ≡ a) × (p.b.model ≡ b)) }
        ensures err { IfErr result (λ e. refusal a b ≡ Some e) }
    {
        let a = Formed::new(a)?;
        let b = Formed::new(b)?;
        let list = moves_of(&a, &b);
        if fits(&a, &b, list.count) {
            Ok(Pair { a, b, list })
        } else {
            Err(ComposeRefusal::TooLarge)
        }
    }

    fn counters(&self) -> [Counter; Model::COUNTERS]
        ensures { result ≡ joined_counters self.now.a.model self.now.b.model }
    {
        let (a, b) = (&self.a.model, &self.b.model);
        joined(a.vars as usize, |i| a.counters[i], |i| b.counters[i])
    }

    // Slot `n` of the invariants: that of the location with number `n`, and blank past the last.
    fn invariant(&self, n: usize) -> Invariant
        ensures { result ≡ get_or (joined_invariants self.now.a.model self.now.b.model) n blank_invariant }
    {
        let (a, b) = (&self.a.model, &self.b.model);
        let row = b.locations as usize;
        let atoms = if n < a.locations as usize * row {
            let first = a.invariants[n / row].atoms;
            let second = b.invariants[n % row].atoms;
            Shift::new(&self.a, &self.b).atoms(first, second)
        } else {
            [Atom::Blank; Model::ATOMS]
        };
        Invariant { atoms }
    }

    fn invariants(&self) -> [Invariant; Model::LOCATIONS]
        ensures { result ≡ placed (replicate 16 blank_invariant) 0 (joined_invariants self.now.a.model self.now.b.model) }
    {
        array::from_fn(|n| self.invariant(n))
    }

    // Slot `n` of the edges: that of move `n`, and blank past the last.
    fn edge(&self, n: usize) -> Edge
        requires { n < 32 }
        ensures { result ≡ composed_edge self.now.a.model self.now.b.model n }
    {
        if n < self.list.count {
            edge_of(&self.a, &self.b, self.list.slots[n])
        } else {
            standing(0)
        }
    }

    fn edges(&self) -> [Edge; Model::EDGES]
        ensures { result ≡ list_below (composed_edge self.now.a.model self.now.b.model) 32 }
    {
        array::from_fn(|n| self.edge(n))
    }

    // The composed model.
    pub(crate) fn composed(&self) -> Model
        ensures { result ≡ composed self.now.a.model self.now.b.model }
    {
        let (a, b) = (&self.a.model, &self.b.model);
        Model {
            locations: a.locations * b.locations,
            initial: a.initial * b.locations + b.initial,
            target: a.target * b.locations + b.target,
            clocks: a.clocks + b.clocks,
            vars: a.vars + b.vars,
            counters: self.counters(),
            invariants: self.invariants(),
            used: self.list.count as u8,
            edges: self.edges(),
        }
    }

    // A step byte of the composed model in each part: 27.
    pub(crate) fn steps(&self, byte: u8) -> Result<PartSteps, PartsRefusal>
        ensures { parts_told result ≡ steps_report self.now.a.model self.now.b.model byte }
    {
        let z = self.composed().totals();
        if byte as usize >= z.choices {
            return Err(PartsRefusal::NoSuchChoice);
        }
        let top = self.a.model.ceiling() as u8;
        let other_top = self.b.model.ceiling() as u8;
        if byte as usize <= z.ceiling {
            return Ok(PartSteps {
                first: byte.min(top),
                second: byte.min(other_top),
            });
        }
        let way = self.list.slots[byte as usize - (z.ceiling + 1)];
        let first = edge_byte(way.first_edge(), top);
        let second = edge_byte(way.second_edge(), other_top);
        Ok(PartSteps { first, second })
    }
}
