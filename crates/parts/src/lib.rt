// The groups of a state block, and the parts of the list that atoms, delays and edges ask for.
#![tactic(auto)]

ghost use Rattle.std.specs.Prelude.{◌≡◌, cond, ℕ, ◌+◌, ◌<◌, ◌≤◌, T, leb, get_or};
ghost use Rattle.model.specs.Automaton.{ceiling, group_size, set_earlier};
ghost use Rattle.model.specs.Bounds.{KnownTotals};
ghost use Rattle.model.specs.Form.{well_formed};
ghost use Rattle.parts.specs.Numbering.{most_variables};
ghost use Rattle.parts.specs.StateBlock.{component_at, empty_group, first_at, group_table, size_at, Bounded};
ghost use Rattle.parts.specs.PartsOf.{exclude_part, atom_part, leads_part, delay_part, set_part, update_part, reset_part, edge_part, greatest_at, next_at};

use model::updates::set_earlier;
use model::{Atom, ClockUpdate, Counter, Edge, Model, Relation, Totals, Update};

pub mod layout;
pub mod numbering;

// What a part of the list asks of a value before, under a choice or a location.
#[derive(Clone, Copy, Debug, PartialEq, Eq)]
pub enum Rule {
    Exclude { relation: Relation, constant: u8 },
    Keep,
    Rise { by: u8, top: u8 },
    Shift { offset: i8, greatest: u8 },
    Set(u8),
    Forbid,
}

// A rule for each of `size` values, whose variables begin at `before`; the variables of the group after begin at `after`,
// and it has `into` members.
#[derive(Clone, Copy, Debug, PartialEq, Eq)]
pub struct Part {
    pub rule: Rule,
    pub before: usize,
    pub size: usize,
    pub after: usize,
    pub into: usize,
}

// A group: where it begins in its state block, and how many members it has.
#[derive(Clone, Copy, Debug, PartialEq, Eq)]
pub struct Group {
    pub first: u16,
    pub size: u16,
}

// The groups of a state block in block order. M, S and H.
#[derive(Clone, Copy, Debug, PartialEq, Eq)]
pub struct GroupTable {
    pub groups: usize,
    pub blocks: [Group; 9],
    pub counters: [Counter; Model::COUNTERS],
    pub vars: usize,
    pub top: u8,
    pub state: usize,
    pub choices: usize,
}

// The state block in which an update of counter `i` reads counter `w`: the one after, at `next`, if `w` is set earlier, else the one at `o`.
pub fn read_at(order: [u8; Model::COUNTERS], w: u8, i: u8, o: usize, next: usize) -> usize
    ensures { result ≡ cond (set_earlier order w i) next o }
{
    if set_earlier(order, w, i) { next } else { o }
}

// How many members group `g` of a state block has.
fn group_size(m: &Model, top: u8, g: usize) -> u16
    requires { T (well_formed m.now) × (top ≡ ceiling m.now) }
    ensures { (result ≡ group_size m.now (component_at m.now g)) × (result ≤ 32) }
{
    if g == 0 {
        m.locations as u16
    } else if g <= m.vars as usize {
        m.counters[g - 1].greatest as u16 + 1
    } else {
        top as u16 + 1
    }
}

// The groups of a well-formed model. `z` are the totals of `m`.
pub fn group_table(m: &Model, z: &Totals) -> GroupTable
    requires { T (well_formed m.now) × KnownTotals m.now z.now }
    ensures { result ≡ group_table m.now }
{
    let top = z.ceiling as u8;
    let mut blocks = [Group::EMPTY; 9];
    let mut sum: u16 = 0;
    for (g, block) in blocks.iter_mut().enumerate() {
        let n = group_size(m, top, g);
        *block = Group {
            first: sum,
            size: n,
        };
        sum += n;
    }
    GroupTable {
        groups: 1 + m.vars as usize + m.clocks as usize,
        blocks,
        counters: m.counters,
        vars: m.vars as usize,
        top,
        state: z.state,
        choices: z.choices,
    }
}

impl Group {
    // What stands past the last group.
    const EMPTY: Group = Group { first: 0, size: 0 };
}

impl Part {
    // One clause, about a group that begins at `after`.
    fn once(rule: Rule, after: usize, into: usize) -> Part
        ensures { result ≡ set_part after into rule }
    {
        Part {
            rule,
            before: 0,
            size: 1,
            after,
            into,
        }
    }
}

impl GroupTable {
    // Group `g`; past the table there is an empty one.
    pub fn group(&self, g: usize) -> Group
        ensures { result ≡ get_or self.now.blocks g empty_group }
    {
        self.blocks.get(g).copied().unwrap_or(Group::EMPTY)
    }

    // Where the state block after the one at `o` begins.
    fn next_at(&self, o: usize) -> u16
        requires { Bounded self.now × (o ≤ most_variables) }
        ensures { result ≡ next_at self.now o }
    {
        o as u16 + self.state as u16 + self.choices as u16
    }

    // Group `g` of the state block that begins at `o`: its values that fail the comparison are ruled out.
    fn exclude_part(&self, o: usize, g: usize, relation: Relation, constant: u8) -> Part
        requires { Bounded self.now × (o ≤ most_variables) }
        ensures { result ≡ exclude_part self.now o g relation constant }
    {
        let group = self.group(g);
        Part {
            rule: Rule::Exclude { relation, constant },
            before: (o as u16 + group.first) as usize,
            size: group.size as usize,
            after: 0,
            into: 0,
        }
    }

    // The clauses of an atom at the state block that begins at `o`.
    pub fn atom_part(&self, o: usize, atom: Atom) -> Part
        requires { Bounded self.now × (o ≤ most_variables) }
        ensures { result ≡ atom_part self.now o atom }
    {
        match atom {
            Atom::Blank => Part {
                rule: Rule::Forbid,
                before: 0,
                size: 0,
                after: 0,
                into: 0,
            },
            Atom::OnClock {
                clock,
                relation,
                constant,
            } => self.exclude_part(o, 1 + self.vars + clock as usize, relation, constant),
            Atom::OnCounter {
                counter,
                relation,
                constant,
            } => self.exclude_part(o, 1 + counter as usize, relation, constant),
        }
    }

    // Group `g` of the state block at `from` leads to group `h` of the state after the one at `o`.
    fn leads_part(&self, from: usize, o: usize, g: usize, h: usize, rule: Rule) -> Part
        requires { Bounded self.now × (from ≤ next_at self.now most_variables) × (o ≤ most_variables) }
        ensures { result ≡ leads_part self.now from o g h rule }
    {
        let before = self.group(g);
        let after = self.group(h);
        Part {
            rule,
            before: (from as u16 + before.first) as usize,
            size: before.size as usize,
            after: (self.next_at(o) + after.first) as usize,
            into: after.size as usize,
        }
    }

    // The clauses of delay `d` on group `g` of the state block that begins at `o`.
    pub fn delay_part(&self, o: usize, d: u8, g: usize) -> Part
        requires { Bounded self.now × (o ≤ most_variables) }
        ensures { result ≡ delay_part self.now o d g }
    {
        let rule = if g < 1 + self.vars {
            Rule::Keep
        } else {
            Rule::Rise {
                by: d,
                top: self.top,
            }
        };
        self.leads_part(o, o, g, g, rule)
    }

    // One clause about group `h` of the state after the one at `o`.
    fn set_part(&self, o: usize, h: usize, rule: Rule) -> Part
        requires { Bounded self.now × (o ≤ most_variables) }
        ensures { result ≡ set_part (next_at self.now o + first_at self.now h) (size_at self.now h) rule }
    {
        let group = self.group(h);
        Part::once(
            rule,
            (self.next_at(o) + group.first) as usize,
            group.size as usize,
        )
    }

    // What constant `n` asks of counter `i`.
    fn constant_rule(&self, i: usize, n: u8) -> Rule
        requires { i < 4 }
        ensures { result ≡ cond (leb n (greatest_at self.now i)) (Rule.Set n) Rule.Forbid }
    {
        if n <= self.counters[i].greatest {
            Rule::Set(n)
        } else {
            Rule::Forbid
        }
    }

    // The clauses of an update of counter `i`.
    pub fn update_part(
        &self,
        o: usize,
        order: [u8; Model::COUNTERS],
        i: usize,
        update: Update,
    ) -> Part
        requires { Bounded self.now × (o ≤ most_variables) × (i < 4) }
        ensures { result ≡ update_part self.now o order i update }
    {
        match update {
            Update::Keep => self.leads_part(o, o, 1 + i, 1 + i, Rule::Keep),
            Update::Constant(n) => self.set_part(o, 1 + i, self.constant_rule(i, n)),
            Update::Sum { source, offset } => {
                let from = read_at(order, source, i as u8, o, self.next_at(o) as usize);
                let w = 1 + source as usize;
                let rule = Rule::Shift {
                    offset,
                    greatest: self.counters[i].greatest,
                };
                self.leads_part(from, o, w, 1 + i, rule)
            }
        }
    }

    // The clauses of an update of clock `i`.
    pub fn reset_part(&self, o: usize, i: usize, update: ClockUpdate) -> Part
        requires { Bounded self.now × (o ≤ most_variables) × (i < 4) }
        ensures { result ≡ reset_part self.now o i update }
    {
        let g = 1 + self.vars + i;
        match update {
            ClockUpdate::Unchanged => self.leads_part(o, o, g, g, Rule::Keep),
            ClockUpdate::Reset => self.set_part(o, g, Rule::Set(0)),
            ClockUpdate::Copy { source } => {
                self.leads_part(o, o, 1 + self.vars + source as usize, g, Rule::Keep)
            }
        }
    }

    // Part `j` of an edge, from the state block that begins at `o`: source, target, guard atoms, counters, clocks.
    #[tactic(auto, unfolding(crate::specs::PartsOf::edge_part))]
    pub fn edge_part(&self, e: &Edge, o: usize, j: usize) -> Part
        requires { Bounded self.now × (o ≤ most_variables) × (j < self.now.groups + 5) }
        ensures { result ≡ edge_part self.now e.now o j }
    {
        let locations = self.group(0).size as usize;
        match j {
            0 => Part::once(Rule::Set(e.source), o, locations),
            1 => Part::once(Rule::Set(e.target), self.next_at(o) as usize, locations),
            2..=5 => self.atom_part(o, e.guard[j - 2]),
            _ if j - 6 < self.vars => self.update_part(o, e.order, j - 6, e.updates[j - 6]),
            _ => {
                let x = j - 6 - self.vars;
                self.reset_part(o, x, e.resets[x])
            }
        }
    }
}
