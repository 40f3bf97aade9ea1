// The initial state, delays and edges.
ghost use Rattle.std.specs.Prelude.{◌≡◌, ◌<◌, get_or};
ghost use Rattle.model.specs.Indexed.{list_below};
ghost use Rattle.model.specs.Record.{blank_counter};
ghost use Rattle.model.specs.Automaton.{initial_state, delayed_clock, delayed, delay_step, next_counter, listed, applied, updated, next_clock, after_edge, edge_step};

use crate::atoms::{all_hold, slot};
use crate::{Counter, Edge, Model, State};
use std::array;

impl Model {
    fn initial_counters(self) -> [u8; Model::COUNTERS]
        ensures { result ≡ list_below (λ i. (get_or self.counters i blank_counter).initial) 4 }
    {
        self.counters.map(|counter| counter.initial)
    }

    pub fn initial_state(self) -> State
        ensures { result ≡ initial_state self }
    {
        State {
            location: self.initial,
            counters: self.initial_counters(),
            clocks: [0; Model::CLOCKS],
        }
    }
}

impl Edge {
    // The new value of counter `i`, where the counters show `values`.
    fn next_counter(
        self,
        counters: [Counter; Model::COUNTERS],
        values: [u8; Model::COUNTERS],
        i: usize,
    ) -> Option<u8>
        requires { i < 4 }
        ensures { result ≡ next_counter counters self values i }
    {
        self.updates[i].next(values[i], values, counters[i].greatest)
    }

    // The counters after the update of counter `i`; there is none past the slots.
    fn apply(
        self,
        counters: [Counter; Model::COUNTERS],
        values: [u8; Model::COUNTERS],
        i: usize,
    ) -> Option<[u8; Model::COUNTERS]>
        ensures { result ≡ applied counters self values i }
    {
        let mut next = values;
        if i < Model::COUNTERS {
            next[i] = self.next_counter(counters, values, i)?;
        }
        Some(next)
    }

    // The counters after the listed updates, in their order.
    fn updated(
        self,
        counters: [Counter; Model::COUNTERS],
        values: [u8; Model::COUNTERS],
    ) -> Option<[u8; Model::COUNTERS]>
        ensures { result ≡ updated counters self values (listed self) }
    {
        let mut now = values;
        let order = &self.order[..self.listed()];
        for counter in order {
            now = self.apply(counters, now, *counter as usize)?;
        }
        Some(now)
    }
}

impl State {
    fn delayed_clock(self, clocks: u8, top: u8, d: u8, i: u8) -> u8
        ensures { result ≡ delayed_clock clocks top d self i }
    {
        let now = slot(self.clocks, i);
        if i < clocks {
            (now as u16 + d as u16).min(top as u16) as u8
        } else {
            now
        }
    }

    // The state after a delay under the ceiling `top`, whether or not its invariant holds.
    fn delayed(self, clocks: u8, top: u8, d: u8) -> State
        ensures { result ≡ delayed clocks top d self }
    {
        State {
            location: self.location,
            counters: self.counters,
            clocks: array::from_fn(|i| self.delayed_clock(clocks, top, d, i as u8)),
        }
    }

    // Delay `d` under the ceiling `top`: the new state, if it is allowed.
    pub fn delay(self, m: Model, top: u8, d: u8) -> Option<State>
        ensures { result ≡ delay_step m top d self }
    {
        let later = self.delayed(m.clocks, top, d);
        m.invariant_holds(later).then_some(later)
    }

    fn next_clock(self, e: Edge, i: usize) -> u8
        requires { i < 4 }
        ensures { result ≡ next_clock e self i }
    {
        e.resets[i].next(self.clocks[i], self.clocks)
    }

    fn next_clocks(self, e: Edge) -> [u8; Model::CLOCKS]
        ensures { result ≡ list_below (next_clock e self) 4 }
    {
        array::from_fn(|i| self.next_clock(e, i))
    }

    fn after_edge(self, e: Edge, values: [u8; Model::COUNTERS]) -> State
        ensures { result ≡ after_edge e self values }
    {
        State {
            location: e.target,
            counters: values,
            clocks: self.next_clocks(e),
        }
    }

    // Edge `e`: the new state, if it is allowed.
    pub fn edge(self, m: Model, e: Edge) -> Option<State>
        ensures { result ≡ edge_step m e self }
    {
        let values = e.updated(m.counters, self.counters)?;
        let next = self.after_edge(e, values);
        let allowed = self.location == e.source
            && all_hold(e.guard, self)
            && m.invariant_holds(next);
        allowed.then_some(next)
    }
}
