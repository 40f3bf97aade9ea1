// The value of a set line.
ghost use Rattle.std.specs.Prelude.{◌≡◌};
ghost use mathlib.Core.List.{map};
ghost use Rattle.text.specs.bytes.Bytes.{items_of};
ghost use Rattle.text.specs.updates.Sets.{signed_sum, sum_of, set_to, set_of, is_outside, is_undeclared, counter_of, SetsOf};
ghost use Rattle.text.specs.updates.OnePass.{stored_offset, stored_update, is_set, absorbed};

use crate::bytes;
use crate::bytes::{Faults, LineFault};
use model::{Model, Update};

// One item of the line, if it has the form of one.
#[derive(Clone, Copy, Debug, PartialEq, Eq)]
pub enum SetRead {
    ToConstant {
        counter: u16,
        constant: u16,
    },
    ToSum {
        counter: u16,
        source: u16,
        negative: bool,
        amount: u16,
    },
}

// The updates, and the order in which they are listed.
#[derive(Clone, Copy, Debug, PartialEq, Eq)]
pub struct SetSlots {
    pub updates: [Update; Model::COUNTERS],
    pub order: [u8; Model::COUNTERS],
}

// What one pass over the items collects. `count` slots of the order are filled.
#[derive(Clone, Copy, Debug, PartialEq, Eq)]
pub(crate) struct SetsRead {
    faults: Faults,
    updates: [Update; Model::COUNTERS],
    count: usize,
    order: [u8; Model::COUNTERS],
}

fn signed_sum(counter: u16, source: u16, sign: u8, amount: u16) -> Option<SetRead>
    ensures { result ≡ signed_sum counter source sign amount }
{
    let negative = match sign {
        b'+' => false,
        b'-' if 0 < amount => true,
        _ => return None,
    };
    Some(SetRead::ToSum {
        counter,
        source,
        negative,
        amount,
    })
}

// v, a number, a sign and a number.
fn sum(s: &[u8], counter: u16) -> Option<SetRead>
    ensures { result ≡ sum_of counter s.now }
{
    let (source, rest) = bytes::leading(bytes::tail(s, 1));
    let source = source?;
    let amount = bytes::number(bytes::tail(rest, 1))?;
    signed_sum(counter, source, bytes::byte(rest, 0), amount)
}

// What a counter is set to.
fn set_to(s: &[u8], counter: u16) -> Option<SetRead>
    ensures { result ≡ set_to counter s.now }
{
    if bytes::byte(s, 0) == b'v' {
        return sum(s, counter);
    }
    let constant = bytes::number(s)?;
    Some(SetRead::ToConstant { counter, constant })
}

// One item: v, the number of the counter set, :=, and what it is set to.
fn item(s: &[u8]) -> Option<SetRead>
    ensures { result ≡ set_of s.now }
{
    let (counter, rest) = bytes::leading(bytes::tail(s, 1));
    if (bytes::byte(s, 0) == b'v') & bytes::assigns(rest) {
        set_to(bytes::tail(rest, 2), counter?)
    } else {
        None
    }
}

// The offset, or 0 where it is out of range.
fn offset(negative: bool, n: u16) -> i8
    ensures { result ≡ stored_offset negative n }
{
    if (Model::COUNTER_VALUE as u16) < n {
        return 0;
    }
    let m = n as i8;
    if negative { -m } else { m }
}

fn is_outside(item: Option<SetRead>) -> bool
    ensures { result ≡ is_outside item }
{
    match item {
        None => false,
        Some(SetRead::ToConstant { constant, .. }) => (Model::COUNTER_VALUE as u16) < constant,
        Some(SetRead::ToSum { amount, .. }) => (Model::COUNTER_VALUE as u16) < amount,
    }
}

fn is_undeclared(item: Option<SetRead>, vars: u8) -> bool
    ensures { result ≡ is_undeclared vars item }
{
    match item {
        None => false,
        Some(SetRead::ToConstant { counter, .. }) => (vars as u16) <= counter,
        Some(
            SetRead::ToSum {
                counter,
                source,
                ..
            },
        ) => { ((vars as u16) <= counter) | ((vars as u16) <= source) }
    }
}

// The counter set; `Model::COUNTERS`, which none is, for an item not of its form.
fn counter(item: Option<SetRead>) -> u16
    ensures { result ≡ counter_of item }
{
    match item {
        None => Model::COUNTERS as u16,
        Some(SetRead::ToConstant { counter, .. }) | Some(SetRead::ToSum { counter, .. }) => counter,
    }
}

fn stored(item: Option<SetRead>) -> Update
    ensures { result ≡ stored_update item }
{
    match item {
        None => Update::Keep,
        Some(SetRead::ToConstant { constant, .. }) => Update::Constant(bytes::narrow(constant)),
        Some(
            SetRead::ToSum {
                source,
                negative,
                amount,
                ..
            },
        ) => Update::Sum {
            source: bytes::narrow(source),
            offset: offset(negative, amount),
        },
    }
}

// Whether counter k is set.
fn is_set(slots: [Update; Model::COUNTERS], k: usize) -> bool
    ensures { result ≡ is_set slots k }
{
    match slots.get(k) {
        Some(update) => !update.is_keep(),
        None => false,
    }
}

impl SetsRead {
    const NONE: SetsRead = SetsRead {
        faults: Faults::NONE,
        updates: [Update::Keep; Model::COUNTERS],
        count: 0,
        order: [0; Model::COUNTERS],
    };

    // One more item.
    fn absorb(self, vars: u8, item: Option<SetRead>) -> SetsRead
        ensures { result ≡ absorbed vars self item }
    {
        let f = self.faults;
        let n = self.count;
        let counter = counter(item);
        let k = counter as usize;
        let mut next = self;
        next.faults = Faults {
            malformed: f.malformed | item.is_none(),
            outside: f.outside | is_outside(item),
            undeclared: f.undeclared | is_undeclared(item, vars),
            unordered: f.unordered | is_set(self.updates, k),
            ..f
        };
        bytes::put(&mut next.updates, k, stored(item));
        bytes::put(&mut next.order, n, bytes::narrow(counter));
        next.count = bytes::next_count(Model::COUNTERS, n);
        next
    }
}

// The value of a set line.
pub fn set_value(v: &[u8], vars: u8) -> Result<SetSlots, LineFault>
    ensures { SetsOf vars (map set_of (items_of v.now)) result }
{
    let read = bytes::absorbed(v, SetsRead::NONE, |read, s| read.absorb(vars, item(s)));
    read.faults.check()?;
    let SetsRead { updates, order, .. } = read;
    Ok(SetSlots { updates, order })
}
