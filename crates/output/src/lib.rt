// A solver's output in the competition's format: what it says, and the assignment that it names.
#![tactic(auto)]

ghost use Rattle.std.specs.Prelude.{◌≡◌, ◌≤◌, ◌<◌, length, Ok, Err};
ghost use Rattle.output.specs.OutputCall.{judged, report_of, end_report, output_report, output_left, output_told};
ghost use Rattle.output.specs.Counting.{counted_from};

use crate::lines::Stage;
use crate::reading::{Fault, Reading};
use crate::variables::Variables;

mod bytes;
mod lines;
mod literals;
mod placing;
mod reading;
mod variables;

// What an accepted output says, by the exit codes of solvers.
#[derive(Clone, Copy, Debug, PartialEq, Eq)]
pub enum Outcome {
    Satisfiable = 10,
    Unsatisfiable = 20,
}

// Why an output is refused, and in which line, counted from 1.
#[derive(Clone, Copy, Debug, PartialEq, Eq)]
pub enum OutputRefusal {
    OutOfFormOrPlace { line: usize },
    AboveOrNamedBefore { line: usize },
    Incomplete { line: usize },
}

impl Outcome {
    // 10 satisfiable, 20 unsatisfiable.
    pub fn code(self) -> u8
        ensures { result ≡ (output_told (Ok self)).outcome }
    {
        self as u8
    }
}

impl OutputRefusal {
    pub fn number(self) -> u8
        ensures { result ≡ (output_told (Err self)).number }
    {
        match self {
            OutputRefusal::OutOfFormOrPlace { .. } => 33,
            OutputRefusal::AboveOrNamedBefore { .. } => 34,
            OutputRefusal::Incomplete { .. } => 35,
        }
    }

    pub fn line(self) -> usize
        ensures { result ≡ (output_told (Err self)).line }
    {
        match self {
            OutputRefusal::OutOfFormOrPlace { line }
            | OutputRefusal::AboveOrNamedBefore { line }
            | OutputRefusal::Incomplete { line } => line,
        }
    }
}

// The answer at the end of a text without a fault.
fn ended(line: usize, stage: Stage) -> Result<Outcome, OutputRefusal>
    requires { line < 9223372036854775808 }
    ensures { output_told result ≡ end_report line stage }
{
    match stage {
        Stage::BeforeStatus | Stage::InValues => Err(OutputRefusal::Incomplete { line: line + 1 }),
        Stage::Closed => Ok(Outcome::Satisfiable),
        Stage::Refuted => Ok(Outcome::Unsatisfiable),
    }
}

// The answer after a text.
fn answer(r: Reading) -> Result<Outcome, OutputRefusal>
    requires { r.line < 9223372036854775808 }
    ensures { output_told result ≡ report_of r.fault r.line r.stage }
{
    let line = r.line;
    match r.fault {
        None => ended(line, r.stage),
        Some(Fault::OutOfFormOrPlace) => Err(OutputRefusal::OutOfFormOrPlace { line }),
        Some(Fault::AboveOrNamedBefore) => Err(OutputRefusal::AboveOrNamedBefore { line }),
        Some(Fault::Incomplete) => Err(OutputRefusal::Incomplete { line }),
    }
}

// The reading of a text for the variables 1 to `most`: one pass that counts variables, one that looks for a variable named again,
// and where there is one, a pass that ends there.
fn read_output(text: &[u8], variables: Variables) -> Reading
    ensures { (result ≡ counted_from (judged variables.most text.now)) × (result.line ≤ length text.now) }
{
    let first = reading::read_through(text, variables, variables.most);
    let fresh = placing::fresh(text, first.named, variables);
    if fresh == first.named {
        first
    } else {
        reading::read_through(text, variables, fresh)
    }
}

// Reads a solver's output and writes the assignment that it names: 33, 34, 35.
pub fn output_to_assignment(text: &[u8], assignment: &mut [u8]) -> Result<Outcome, OutputRefusal>
    ensures result_value { output_told result ≡ output_report text.now (length assignment.old) }
    ensures assignment_after { assignment.new ≡ output_left text.now assignment.old }
{
    let variables = Variables {
        most: assignment.len(),
    };
    let told = answer(read_output(text, variables));
    if told == Ok(Outcome::Satisfiable) {
        placing::write(text, assignment);
    }
    told
}
