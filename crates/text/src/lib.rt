// The model text: what it says, or why it is refused.
#![tactic(auto)]

ghost use Rattle.std.specs.Prelude.{◌≡◌};
ghost use Rattle.text.specs.Text.{read_report, read_told, outcome_number, outcome_line};
ghost use Rattle.text.specs.Bound.{bound_report, bound_told};
ghost use Rattle.text.specs.Item.{item_report, item_told};

use model::Model;

mod atoms;
mod bytes;
mod edges;
mod head;
mod line;
mod lines;
mod reader;
mod resets;
mod sequence;
mod updates;

// The longest text that is read.
pub const BYTES: usize = 8192;

// Why a text is not read. A line is counted from 1.
#[derive(Clone, Copy, Debug, PartialEq, Eq)]
pub enum ReadRefusal {
    TooLong,
    NotDue { line: usize },
    NotOfItsForm { line: usize },
    TooManyItems { line: usize },
    OutOfRange { line: usize },
    NotDeclared { line: usize },
    SetTwiceOrNotRising { line: usize },
    BytesLeft { line: usize },
}

// The bound of a bound line, and how many bytes after the line's start the model text begins.
#[derive(Clone, Copy, Debug, PartialEq, Eq)]
pub struct BoundLine {
    pub bound: u16,
    pub next: usize,
}

// A bound line, if there is one, and the model text that follows it, or else all of the input as a model text.
#[derive(Clone, Copy, Debug, PartialEq, Eq)]
pub struct ItemRead {
    pub bound: Option<BoundLine>,
    pub text: Result<Model, ReadRefusal>,
}

impl ReadRefusal {
    pub fn number(self) -> u8
        ensures { result ≡ outcome_number self }
    {
        match self {
            ReadRefusal::TooLong => 1,
            ReadRefusal::NotDue { .. } => 2,
            ReadRefusal::NotOfItsForm { .. } => 3,
            ReadRefusal::OutOfRange { .. } => 4,
            ReadRefusal::NotDeclared { .. } => 5,
            ReadRefusal::SetTwiceOrNotRising { .. } => 6,
            ReadRefusal::TooManyItems { .. } => 7,
            ReadRefusal::BytesLeft { .. } => 8,
        }
    }

    pub fn line(self) -> usize
        ensures { result ≡ outcome_line self }
    {
        match self {
            ReadRefusal::TooLong => 0,
            ReadRefusal::NotDue { line }
            | ReadRefusal::NotOfItsForm { line }
            | ReadRefusal::OutOfRange { line }
            | ReadRefusal::NotDeclared { line }
            | ReadRefusal::SetTwiceOrNotRising { line }
            | ReadRefusal::TooManyItems { line }
            | ReadRefusal::BytesLeft { line } => line,
        }
    }
}

// The whole text: 1, then its lines, then 8.
pub fn read_model(text: &[u8]) -> Result<Model, ReadRefusal>
    ensures { read_told result ≡ read_report text.now }
{
    reader::placed(text, 0).model()
}

// The first line of a program's input: 9.
pub fn read_bound(text: &[u8]) -> Option<BoundLine>
    ensures { bound_told result ≡ bound_report text.now }
{
    reader::placed(text, 0).bound()
}

// The number of what was read as a bound line: 0, or 9 where there is none.
pub fn bound_number(read: Option<BoundLine>) -> u8
    ensures { result ≡ (bound_told read).number }
{
    match read {
        Some(_) => 0,
        None => 9,
    }
}

// A bound line and the model text that follows it, read by one reader.
pub fn read_item(input: &[u8]) -> ItemRead
    ensures { item_told result ≡ item_report input.now }
{
    reader::placed(input, 0).item()
}
