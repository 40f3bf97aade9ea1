// The numbers of the size program: a bound line and a model text, read, and the clause list written into the lent words.
#![tactic(auto)]

ghost use Rattle.std.specs.Prelude.{◌≡◌, length};
ghost use Rattle.emission.specs.EmitCall.{emit_told};
ghost use Rattle.text.specs.Text.{read_report, read_told};
ghost use Rattle.sizing.specs.SizeCall.{refused_sizes, emitted_sizes, text_sizes, text_left, size_report, size_left, size_told, program_report};

use counts::ListCounts;
use emission::{EmitRefusal, emit};
use model::Model;
use text::{ReadRefusal, read_item, read_model};

// The number of the refusal, or 0; the line of the model text, or 0; the counts of the list.
#[repr(C)]
#[derive(Clone, Copy)]
pub struct SizeAnswer {
    pub number: u8,
    pub line: usize,
    pub variables: usize,
    pub clauses: usize,
    pub words: usize,
}

impl SizeAnswer {
    // The words that the size program lends.
    pub const WORDS: usize = 16384;

    // The number of the refusal of an input whose first line is no bound line.
    pub const NOT_A_BOUND: u8 = 9;
}

fn refused(number: u8, line: usize) -> SizeAnswer
    ensures { size_told result ≡ refused_sizes number line }
{
    SizeAnswer {
        number,
        line,
        variables: 0,
        clauses: 0,
        words: 0,
    }
}

// What emission answers, in the numbers of the size program.
pub fn emitted(e: Result<ListCounts, EmitRefusal>) -> SizeAnswer
    ensures { size_told result ≡ emitted_sizes (emit_told e) }
{
    match e {
        Ok(n) => SizeAnswer {
            number: 0,
            line: 0,
            variables: n.variables,
            clauses: n.clauses,
            words: n.words,
        },
        Err(refusal) => SizeAnswer {
            number: refusal.number(),
            line: 0,
            variables: 0,
            clauses: 0,
            words: refusal.words(),
        },
    }
}

// What was read of a text, then 21, then 22.
fn read_sizes(read: Result<Model, ReadRefusal>, bound: usize, out: &mut [i32]) -> SizeAnswer
    ensures { (size_told result ≡ text_sizes (read_told read) bound (length out.old)) × (out.new ≡ text_left (read_told read) bound out.old) }
{
    match read {
        Ok(model) => emitted(emit(model, bound, out)),
        Err(refusal) => refused(refusal.number(), refusal.line()),
    }
}

// The text, then 21, then 22.
pub fn text_sizes(text: &[u8], bound: usize, out: &mut [i32]) -> SizeAnswer
    ensures { (size_told result ≡ text_sizes (read_report text.now) bound (length out.old)) × (out.new ≡ text_left (read_report text.now) bound out.old) }
{
    read_sizes(read_model(text), bound, out)
}

// The bound line and the model text of `input`: 9, then the text, then 21, then 22.
pub fn sizes_of(input: &[u8], out: &mut [i32]) -> SizeAnswer
    ensures result_value { size_told result ≡ size_report input.now (length out.old) }
    ensures out_after { out.new ≡ size_left input.now out.old }
{
    let item = read_item(input);
    match item.bound {
        Some(line) => read_sizes(item.text, line.bound as usize, out),
        None => refused(SizeAnswer::NOT_A_BOUND, 0),
    }
}

// The size program's answer: `sizes_of`, with the program's words lent.
pub fn program_sizes(input: &[u8]) -> SizeAnswer
    ensures { size_told result ≡ program_report input.now }
{
    let mut words = [0; SizeAnswer::WORDS];
    sizes_of(input, &mut words)
}
