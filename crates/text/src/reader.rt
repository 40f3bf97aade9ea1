// A reader that holds the text and its place in it.
ghost use Rattle.std.specs.Prelude.{◌≡◌, ◌+◌, ◌≤◌, length, drop};
ghost use Rattle.text.specs.Text.{read_report, read_told};
ghost use Rattle.text.specs.Bound.{bound_report, bound_told};
ghost use Rattle.text.specs.Item.{ItemFrom};

use crate::{BYTES, BoundLine, ItemRead, ReadRefusal, bytes, line, sequence};
use model::Model;

// A text and a place in it.
#[derive(Clone, Copy, Debug, PartialEq, Eq)]
pub(crate) struct Reader<'a> {
    text: &'a [u8],
    at: usize,
}

// At a place of the text.
pub fn placed<'a>(text: &'a [u8], at: usize) -> Reader<'a>
    ensures { (result.text ≡ text.entry) × (result.at ≡ at) }
{
    Reader { text, at }
}

// How many bytes the bound line takes: 0 where there is none.
fn taken(bound: Option<BoundLine>) -> usize
    ensures { result ≡ (bound_told bound).next }
{
    match bound {
        Some(line) => line.next,
        None => 0,
    }
}

impl<'a> Reader<'a> {
    // The bound line at the reader's place: 9.
    pub fn bound(self) -> Option<BoundLine>
        ensures { bound_told result ≡ bound_report (drop self.entry.at self.entry.text.now) }
    {
        let from = sequence::within(self.text, self.at);
        let due = line::due_at(self.text, from, b"bound=")?;
        let bound = bytes::number(due.value)?;
        Some(BoundLine {
            bound,
            next: due.end + 1 - from,
        })
    }

    // The model text from the reader's place on: 1, then its lines, then 8.
    pub fn model(self) -> Result<Model, ReadRefusal>
        requires { self.at ≤ length self.text.now }
        ensures { read_told result ≡ read_report (drop self.entry.at self.entry.text.now) }
    {
        if BYTES < self.text.len() - self.at {
            return Err(ReadRefusal::TooLong);
        }
        let r = sequence::read_at(self.text, self.at)?;
        if r.at < self.text.len() {
            return Err(ReadRefusal::BytesLeft { line: r.line });
        }
        Ok(r.model)
    }

    // A bound line, and the model text after it.
    pub fn item(self) -> ItemRead
        requires { self.at ≤ length self.text.now }
        ensures { ItemFrom self.entry.text.now self.entry.at result }
    {
        let bound = self.bound();
        ItemRead {
            bound,
            text: placed(self.text, self.at + taken(bound)).model(),
        }
    }
}
