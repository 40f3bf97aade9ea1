// The due line at a place of the text, and the values that are one number or two.
ghost use Rattle.std.specs.Prelude.{◌≡◌, ◌≤◌, length};
ghost use Rattle.text.specs.bytes.Bytes.{number_of, number_in};
ghost use Rattle.text.specs.bytes.Faulty.{Checked};
ghost use Rattle.text.specs.line.Values.{number_faults, reference_faults, greatest_of, initial_of, counter_faults, counter_in};
ghost use Rattle.text.specs.line.DueLines.{DueLine};

use crate::bytes;
use crate::bytes::LineFault;
use model::{Counter, Model};

// The value of a due line, and where the line ends.
#[derive(Clone, Copy, Debug, PartialEq, Eq)]
pub struct Due<'a> {
    pub value: &'a [u8],
    pub end: usize,
}

// The line at `at`, if it is ended by LF and begins with the key.
pub fn due_at<'a>(text: &'a [u8], at: usize, key: &[u8]) -> Option<Due<'a>>
    requires { at ≤ length text.now }
    ensures { DueLine key.now text.now at result }
{
    let end = bytes::find(text, at, b'\n')?;
    let value = text[at..end].strip_prefix(key)?;
    Some(Due { value, end })
}

// A number from `least` to `greatest`.
pub fn number(v: &[u8], least: u8, greatest: u8) -> Result<u8, LineFault>
    ensures { Checked (number_faults least greatest (number_of v.now)) (number_in (number_of v.now)) result }
{
    let n = bytes::number(v).ok_or(LineFault::NotOfItsForm)?;
    if (n < least as u16) | ((greatest as u16) < n) {
        return Err(LineFault::OutOfRange);
    }
    Ok(n as u8)
}

// A reference to one of `declared` locations.
pub fn reference(v: &[u8], declared: u8) -> Result<u8, LineFault>
    ensures { Checked (reference_faults declared (number_of v.now)) (number_in (number_of v.now)) result }
{
    let n = bytes::number(v).ok_or(LineFault::NotOfItsForm)?;
    if (declared as u16) <= n {
        return Err(LineFault::NotDeclared);
    }
    Ok(n as u8)
}

// A counter: its greatest value, a comma, its initial value.
pub fn counter(v: &[u8]) -> Result<Counter, LineFault>
    ensures { Checked (counter_faults (greatest_of v.now) (initial_of v.now)) (counter_in (greatest_of v.now) (initial_of v.now)) result }
{
    let comma = bytes::find(v, 0, b',').ok_or(LineFault::NotOfItsForm)?;
    let greatest = bytes::number(&v[..comma]).ok_or(LineFault::NotOfItsForm)?;
    let initial = bytes::number(&v[comma + 1..]).ok_or(LineFault::NotOfItsForm)?;
    if ((Model::COUNTER_VALUE as u16) < greatest) | (greatest < initial) {
        return Err(LineFault::OutOfRange);
    }
    Ok(Counter {
        greatest: greatest as u8,
        initial: initial as u8,
    })
}
