// The value of a reset line.
ghost use Rattle.std.specs.Prelude.{◌≡◌};
ghost use mathlib.Core.List.{map};
ghost use Rattle.text.specs.bytes.Bytes.{items_of};
ghost use Rattle.text.specs.resets.Resets.{source_of, clock_set, reset_of, is_undeclared, clock_of, ResetsOf};
ghost use Rattle.text.specs.resets.OnePass.{stored_update, absorbed};

use crate::bytes;
use crate::bytes::{Faults, LineFault};
use model::{ClockUpdate, Model};

// One item of the line, if it has the form of one.
#[derive(Clone, Copy, Debug, PartialEq, Eq)]
pub enum ResetRead {
    ToZero(u16),
    ToCopy { clock: u16, source: u16 },
}

// What one pass over the items collects. `least` is the least clock that may be set next.
#[derive(Clone, Copy, Debug, PartialEq, Eq)]
pub(crate) struct ResetsRead {
    faults: Faults,
    least: u32,
    resets: [ClockUpdate; Model::CLOCKS],
}

// The clock copied: x and its number.
fn source(s: &[u8]) -> Option<u16>
    ensures { result ≡ source_of s.now }
{
    let number = s.strip_prefix(b"x")?;
    bytes::number(number)
}

// The number of the clock set and, after :=, the clock copied.
fn clock_set(s: &[u8]) -> Option<ResetRead>
    ensures { result ≡ clock_set s.now }
{
    let (clock, rest) = bytes::leading(s);
    if bytes::assigns(rest) {
        let clock = clock?;
        let source = source(bytes::tail(rest, 2))?;
        Some(ResetRead::ToCopy { clock, source })
    } else {
        Some(ResetRead::ToZero(bytes::number(s)?))
    }
}

// One item: x, and the clock set.
fn item(s: &[u8]) -> Option<ResetRead>
    ensures { result ≡ reset_of s.now }
{
    let set = s.strip_prefix(b"x")?;
    clock_set(set)
}

fn is_undeclared(item: Option<ResetRead>, clocks: u8) -> bool
    ensures { result ≡ is_undeclared clocks item }
{
    match item {
        None => false,
        Some(ResetRead::ToZero(x)) => (clocks as u16) <= x,
        Some(ResetRead::ToCopy { clock, source }) => {
            ((clocks as u16) <= clock) | ((clocks as u16) <= source)
        }
    }
}

// The clock set.
fn clock(item: Option<ResetRead>) -> u16
    ensures { result ≡ clock_of item }
{
    match item {
        None => 0,
        Some(ResetRead::ToZero(clock)) | Some(ResetRead::ToCopy { clock, .. }) => clock,
    }
}

fn stored(item: Option<ResetRead>) -> ClockUpdate
    ensures { result ≡ stored_update item }
{
    match item {
        None => ClockUpdate::Unchanged,
        Some(ResetRead::ToZero(_)) => ClockUpdate::Reset,
        Some(ResetRead::ToCopy { source, .. }) => ClockUpdate::Copy {
            source: bytes::narrow(source),
        },
    }
}

impl ResetsRead {
    const NONE: ResetsRead = ResetsRead {
        faults: Faults::NONE,
        least: 0,
        resets: [ClockUpdate::Unchanged; Model::CLOCKS],
    };

    // One more item.
    fn absorb(self, clocks: u8, item: Option<ResetRead>) -> ResetsRead
        ensures { result ≡ absorbed clocks self item }
    {
        let f = self.faults;
        let k = clock(item) as u32;
        let mut next = self;
        next.faults = Faults {
            malformed: f.malformed | item.is_none(),
            undeclared: f.undeclared | is_undeclared(item, clocks),
            unordered: f.unordered | (k < self.least),
            ..f
        };
        next.least = k + 1;
        bytes::put(&mut next.resets, k as usize, stored(item));
        next
    }
}

// The value of a reset line.
pub fn reset_value(v: &[u8], clocks: u8) -> Result<[ClockUpdate; Model::CLOCKS], LineFault>
    ensures { ResetsOf clocks (map reset_of (items_of v.now)) result }
{
    let read = bytes::absorbed(v, ResetsRead::NONE, |read, s| read.absorb(clocks, item(s)));
    read.faults.check()?;
    Ok(read.resets)
}
