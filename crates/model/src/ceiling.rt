// The ceiling and the totals: the lengths of blocks, the number of variables.
ghost use Rattle.std.specs.Prelude.{◌≡◌, ◌+◌, ◌*◌, ◌≤◌};
ghost use Rattle.model.specs.Indexed.{max_below, sum_below};
ghost use Rattle.model.specs.Record.{invariant_at, edge_at};
ghost use Rattle.model.specs.Automaton.{greatest_constant, ceiling, group_size, counter, totals, variables};
ghost use Rattle.model.specs.Bounds.{Ceiling, KnownTotals};

use crate::atoms::greatest_constant;
use crate::{Model, Totals};

impl Model {
    fn invariant_constant(self) -> u8
        ensures { result ≡ max_below (λ l. greatest_constant (invariant_at self l)) 16 }
    {
        self.invariants.iter().fold(0, |most, invariant| {
            most.max(greatest_constant(invariant.atoms))
        })
    }

    fn guard_constant(self) -> u8
        ensures { result ≡ max_below (λ e. greatest_constant (edge_at self e).guard) 32 }
    {
        self.edges
            .iter()
            .fold(0, |most, edge| most.max(greatest_constant(edge.guard)))
    }

    // M, of any record.
    pub fn ceiling(self) -> usize
        ensures { Ceiling self result }
    {
        1 + usize::from(self.invariant_constant().max(self.guard_constant()))
    }

    // How many values counter `i` shows; past the last slot it shows one.
    fn counter_size(self, i: usize) -> usize
        ensures { (result ≡ group_size self (counter i)) × (result ≤ 256) }
    {
        match self.counters.get(i) {
            Some(counter) => counter.greatest as usize + 1,
            None => 1,
        }
    }

    fn counters_size(self) -> usize
        ensures { (result ≡ sum_below (λ i. group_size self (counter i)) self.vars) × (result ≤ 65280) }
    {
        let mut sum = 0;
        for i in 0..self.vars as usize {
            sum += self.counter_size(i);
        }
        sum
    }

    // M, S and H, of any record.
    pub fn totals(self) -> Totals
        ensures { KnownTotals self result }
    {
        let ceiling = self.ceiling();
        let counters = self.counters_size();
        Totals {
            ceiling,
            state: self.locations as usize + counters + self.clocks as usize * (ceiling + 1),
            choices: ceiling + 1 + self.used as usize,
        }
    }

    // N, of any record.
    pub fn variables(self, bound: u8) -> usize
        ensures { result ≡ variables self bound }
    {
        let z = self.totals();
        z.state + bound as usize * (z.state + z.choices)
    }
}
