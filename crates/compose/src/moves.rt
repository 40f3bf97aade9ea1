// Which edges of two models move alone and which in pairs, and in which order.
ghost use Rattle.std.specs.Prelude.{◌≡◌, List, [], ◌∷◌, ℕ, cond, ◌&&◌, eqb, ◌+◌, ◌<◌, ◌≤◌};
ghost use Rattle.model.specs.Indexed.{each, list_below};
ghost use Rattle.compose.specs.declared.moves.Move.{Move};
ghost use Rattle.compose.specs.Moves.{label_at, bears, shared, pairs_of, moves, no_moves, added, MoveOf, edge_of};
ghost use Rattle.compose.specs.Parts.{first_edge, second_edge};

use crate::formed::Formed;
use crate::joined::{Shift, standing};
use model::{Edge, Model};

// An edge of one model while the other stays in a location, or an edge of each.
#[derive(Clone, Copy, Debug, PartialEq, Eq)]
pub enum Move {
    FirstAlone { edge: u8, stays: u8 },
    SecondAlone { edge: u8, stays: u8 },
    Together { first: u8, second: u8 },
}

impl Move {
    // The first model's edge that moves, if one does.
    pub(crate) fn first_edge(self) -> Option<u8>
        ensures { result ≡ first_edge self }
    {
        match self {
            Move::FirstAlone { edge, .. } => Some(edge),
            Move::SecondAlone { .. } => None,
            Move::Together { first, .. } => Some(first),
        }
    }

    // The second model's edge that moves, if one does.
    pub(crate) fn second_edge(self) -> Option<u8>
        ensures { result ≡ second_edge self }
    {
        match self {
            Move::FirstAlone { .. } => None,
            Move::SecondAlone { edge, .. } => Some(edge),
            Move::Together { second, .. } => Some(second),
        }
    }
}

// How many moves there are, which may be more than there are slots, and the first of them.
#[derive(Clone, Copy)]
pub(crate) struct Moves {
    pub(crate) count: usize,
    pub(crate) slots: [Move; Model::EDGES],
}

fn no_moves() -> Moves
    ensures { result ≡ no_moves }
{
    Moves {
        count: 0,
        slots: [Move::FirstAlone { edge: 0, stays: 0 }; Model::EDGES],
    }
}

// One move more. Every move is counted; it is stored if there is a slot for it.
fn add(list: Moves, way: Move) -> Moves
    requires { list.count ≤ 4096 }
    ensures { result ≡ added list (way ∷ []) }
{
    let at = list.count;
    let mut slots = list.slots;
    if at < Model::EDGES {
        slots[at] = way;
    }
    Moves {
        count: at + 1,
        slots,
    }
}

// Whether an edge of the model bears the label.
fn bears(m: &Formed, label: u8) -> bool
    ensures { result ≡ bears m.now.model label }
{
    m.edges().iter().any(|edge| edge.label == label)
}

// A label other than 0 borne by edges of both models is shared.
fn shared(a: &Formed, b: &Formed, label: u8) -> bool
    ensures { result ≡ shared a.now.model b.now.model label }
{
    label != 0 && bears(a, label) && bears(b, label)
}

// Whether an edge of the first model and an edge of the second move in a pair.
pub(crate) fn paired(a: &Formed, b: &Formed, e: Edge, f: Edge) -> bool
    ensures { result ≡ shared a.now.model b.now.model e.label && eqb e.label f.label }
{
    shared(a, b, e.label) && e.label == f.label
}

// The moves of an edge that moves alone, once for each location in which the other model stays.
fn alone<F: Fn(u8) -> Move>(list: Moves, locations: u8, way: F) -> Moves
    requires few { (list.count ≤ 2048) × (locations ≤ 16) }
    requires way { F.IsAlwaysCallable way }
    ensures count { result.count ≡ list.count + locations }
    ensures moves { (f : ℕ → Move) → ((j : ℕ) (x : Move) → j < 256 → F.post way j x → x ≡ f j) → result ≡ added list (list_below f locations) }
{
    let mut moves = list;
    for j in 0..locations {
        moves = add(moves, way(j));
    }
    moves
}

// A model's lone edges: `way` is the move of an edge while the other model stays in a location.
fn lone_moves<F: Fn(u8, u8) -> Move>(list: Moves, own: &Formed, other: &Formed, way: F) -> Moves
    requires few { list.count ≤ 512 }
    requires way { F.IsAlwaysCallable way }
    ensures { (f : ℕ → ℕ → Move) → ((e j : ℕ) (x : Move) → e < 256 → j < 256 → F.post way e j x → x ≡ f e j) → result ≡ added list (each own.now.model.used (λ e. cond (shared own.now.model other.now.model (label_at own.now.model e)) [] (list_below (f e) other.now.model.locations))) }
{
    let mut moves = list;
    for e in 0..own.model.used {
        if !shared(own, other, own.model.edges[e as usize].label) {
            moves = alone(moves, other.model.locations, |stays| way(e, stays));
        }
    }
    moves
}

// The pairs of an edge of the first model.
fn pairs_of(list: Moves, a: &Formed, b: &Formed, e: u8) -> Moves
    requires { (list.count ≤ 2048) × (e < a.now.model.used) }
    ensures { result ≡ added list (pairs_of a.now.model b.now.model e) }
{
    let mut moves = list;
    let edge = a.model.edges[e as usize];
    for f in 0..b.model.used {
        if paired(a, b, edge, b.model.edges[f as usize]) {
            moves = add(
                moves,
                Move::Together {
                    first: e,
                    second: f,
                },
            );
        }
    }
    moves
}

// Pairs, in lexicographic order.
fn pair_moves(list: Moves, a: &Formed, b: &Formed) -> Moves
    requires { list.count ≤ 1024 }
    ensures { result ≡ added list (each a.now.model.used (pairs_of a.now.model b.now.model)) }
{
    let mut moves = list;
    for e in 0..a.model.used {
        moves = pairs_of(moves, a, b, e);
    }
    moves
}

// All moves, in the order of the composed model's edges.
pub(crate) fn moves_of(a: &Formed, b: &Formed) -> Moves
    ensures { result ≡ added no_moves (moves a.now.model b.now.model) }
{
    let none = no_moves();
    let first = lone_moves(none, a, b, |edge, stays| Move::FirstAlone { edge, stays });
    let alone = lone_moves(first, b, a, |edge, stays| Move::SecondAlone { edge, stays });
    pair_moves(alone, a, b)
}

// The edge of a move.
pub(crate) fn edge_of(a: &Formed, b: &Formed, way: Move) -> Edge
    requires { MoveOf a.now.model b.now.model way }
    ensures { result ≡ edge_of a.now.model b.now.model way }
{
    let shift = Shift::new(a, b);
    match way {
        Move::FirstAlone { edge, stays } => {
            let e = a.model.edges[edge as usize];
            shift.edge(e.label, e, standing(stays))
        }
        Move::SecondAlone { edge, stays } => {
            let f = b.model.edges[edge as usize];
            shift.edge(f.label, standing(stays), f)
        }
        Move::Together { first, second } => {
            let e = a.model.edges[first as usize];
            let f = b.model.edges[second as usize];
            shift.edge(e.label, e, f)
        }
    }
}
