// New values of counters and clocks, and the order of updates.
ghost use Rattle.std.specs.Prelude.{◌≡◌, get_or};
ghost use Rattle.model.specs.Automaton.{is_keep, new_counter, new_clock, listed, place_in, set_earlier};

use crate::atoms::slot;
use crate::{ClockUpdate, Edge, Model, Update};
use new_values::{in_range, shift};

impl Update {
    pub fn is_keep(self) -> bool
        ensures { result ≡ is_keep self }
    {
        matches!(self, Update::Keep)
    }

    pub(crate) fn next(self, own: u8, values: [u8; Model::COUNTERS], greatest: u8) -> Option<u8>
        ensures { result ≡ new_counter (λ w. get_or values w 0) greatest own self }
    {
        match self {
            Update::Keep => Some(own),
            Update::Constant(c) => in_range(greatest, c as u16),
            Update::Sum { source, offset } => shift(offset, greatest, slot(values, source)),
        }
    }
}

impl ClockUpdate {
    pub(crate) fn next(self, own: u8, before: [u8; Model::CLOCKS]) -> u8
        ensures { result ≡ new_clock (λ x. get_or before x 0) own self }
    {
        match self {
            ClockUpdate::Unchanged => own,
            ClockUpdate::Reset => 0,
            ClockUpdate::Copy { source } => slot(before, source),
        }
    }
}

impl Edge {
    // How many updates are listed: those that are not keep.
    pub fn listed(self) -> usize
        ensures { result ≡ listed self }
    {
        self.updates
            .iter()
            .filter(|update| !update.is_keep())
            .count()
    }
}

// The first place of a counter in an edge's order, and 4 where it has none.
pub fn place_in(order: [u8; Model::COUNTERS], counter: u8) -> usize
    ensures { result ≡ place_in order counter }
{
    order
        .iter()
        .position(|listed| *listed == counter)
        .unwrap_or(Model::COUNTERS)
}

// Whether counter `w` is set earlier than counter `i`.
pub fn set_earlier(order: [u8; Model::COUNTERS], w: u8, i: u8) -> bool
    ensures { result ≡ set_earlier order w i }
{
    place_in(order, w) < place_in(order, i)
}
