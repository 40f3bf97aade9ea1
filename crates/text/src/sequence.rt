// The lines of a model text, in their order.
ghost use Rattle.std.specs.Prelude.{◌≡◌, min, length};
ghost use Rattle.model.specs.Record.{blank_model};
ghost use Rattle.text.specs.lines.Readings.{ReadsFrom};

use crate::lines::Reading;
use crate::{ReadRefusal, edges, head};
use model::Model;

// Nothing is read yet.
fn unread(at: usize) -> Reading
    ensures { result ≡ record { line = 1; at = at; model = blank_model } }
{
    Reading {
        line: 1,
        at,
        model: Model::blank(),
    }
}

// The place, or the end for a place past it.
pub fn within(text: &[u8], at: usize) -> usize
    ensures { result ≡ min at (length text.now) }
{
    at.min(text.len())
}

// The lines of a model from a place of the text on. The result says where it stopped.
pub fn read_at(text: &[u8], at: usize) -> Result<Reading, ReadRefusal>
    ensures { ReadsFrom text.now at result }
{
    let a = head::read_declarations(text, unread(within(text, at)))?;
    edges::read_edges(text, a)
}
