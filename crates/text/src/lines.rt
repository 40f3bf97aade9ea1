// A reading in progress, and what a due line makes of it.
ghost use Rattle.std.specs.Prelude.{◌≡◌, List, ℕ};
ghost use Rattle.model.specs.declared.Model.{Model};
ghost use Rattle.text.specs.Text.{outcome_number, outcome_line};
ghost use Rattle.text.specs.bytes.Faulty.{line_told};
ghost use Rattle.text.specs.declared.bytes.Faults.{Faults};
ghost use Rattle.text.specs.lines.Progress.{read_line};
ghost use Rattle.text.specs.lines.Readings.{Placed, Reads, Stores};

use crate::bytes::LineFault;
use crate::{ReadRefusal, line};
use model::Model;

// A reading in progress: the line that is due next and its place. The model is what the lines before it say.
#[derive(Clone, Copy, Debug, PartialEq, Eq)]
pub struct Reading {
    pub line: usize,
    pub at: usize,
    pub model: Model,
}

impl LineFault {
    // The refusal of a text for its line `line`.
    fn at(self, line: usize) -> ReadRefusal
        ensures { (outcome_number result ≡ line_told self) × (outcome_line result ≡ line) }
    {
        match self {
            LineFault::NotDue => ReadRefusal::NotDue { line },
            LineFault::NotOfItsForm => ReadRefusal::NotOfItsForm { line },
            LineFault::TooManyItems => ReadRefusal::TooManyItems { line },
            LineFault::OutOfRange => ReadRefusal::OutOfRange { line },
            LineFault::NotDeclared => ReadRefusal::NotDeclared { line },
            LineFault::SetTwiceOrNotRising => ReadRefusal::SetTwiceOrNotRising { line },
        }
    }
}

impl Reading {
    // After the due line with this key, if it is the due one. Its value puts something into the model, or has a fault.
    pub fn line<F: FnOnce(&[u8], Model) -> Result<Model, LineFault>>(
        self,
        text: &[u8],
        key: &[u8],
        store: F,
    ) -> Result<Reading, ReadRefusal>
        requires placed { Placed text.now self }
        requires callable { F.IsAlwaysCallable store }
        ensures { (faults : Model → List ℕ → Faults) (put : Model → List ℕ → Model) → Stores F.FnOnce store faults put → Reads (read_line key.now faults put) text.now self result }
    {
        let due = line::due_at(text, self.at, key).ok_or(LineFault::NotDue.at(self.line))?;
        match store(due.value, self.model) {
            Ok(model) => Ok(Reading {
                line: self.line + 1,
                at: due.end + 1,
                model,
            }),
            Err(fault) => Err(fault.at(self.line)),
        }
    }
}
