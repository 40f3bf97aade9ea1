// The DIMACS file of a record and a bound, written into a lent buffer or page by page.
#![tactic(auto)]

ghost use Rattle.std.specs.Prelude.{◌≡◌, ◌<◌, ◌≤◌, length};
ghost use Rattle.dimacs.specs.DimacsCall.{file_report, file_left, file_refusal, as_file_refusal, file_told};
ghost use Rattle.dimacs.specs.File.{file};
ghost use Rattle.dimacs.specs.Written.{Needed, Printed};
ghost use Rattle.dimacs.specs.Texts.{entry_count};
ghost use Rattle.counts.specs.KnownCounts.{KnownCounts};
ghost use Rattle.dimacs.specs.Pages.{most_page_bytes, most_rows, most_pages, row_count, pages_in, page_of, has_file, rows_to_print, pages_to_print, page_text};
ghost use Rattle.dimacs.specs.Request.{request_report, request_refusal, as_request_refusal, request_told};

use counts::{ListCounts, list_counts};
use form::{ListRefusal, check_bound};
use model::Model;
use pages::{pages_of, put_page};
use parts::layout::Layout;
use rows::{file_bytes, put_file};
use text::{ReadRefusal, read_item};

mod lines;
mod pages;
mod rows;
mod texts;

// The most words of a piece, the entries of a table of texts, and the most bytes of a page.
pub const WORDS: usize = 6113;

pub const TEXTS: usize = 1217;

pub const PAGE: usize = 65536;

// Why a file is not written.
#[derive(Clone, Copy, Debug, PartialEq, Eq)]
pub enum FileRefusal {
    NotWellFormed,
    BoundTooLarge,
    // The number of bytes that the file takes.
    BufferTooShort { bytes: usize },
}

impl From<ListRefusal> for FileRefusal {
    ghost from_gives = { λ e r. r ≡ as_file_refusal e };

    fn from(refusal: ListRefusal) -> FileRefusal {
        match refusal {
            ListRefusal::NotWellFormed => FileRefusal::NotWellFormed,
            ListRefusal::BoundTooLarge => FileRefusal::BoundTooLarge,
        }
    }
}

impl FileRefusal {
    pub fn number(self) -> u8
        ensures { result ≡ (file_refusal self).number }
    {
        match self {
            FileRefusal::NotWellFormed => 20,
            FileRefusal::BoundTooLarge => 21,
            FileRefusal::BufferTooShort { .. } => 32,
        }
    }

    pub fn bytes(self) -> usize
        ensures { result ≡ (file_refusal self).bytes }
    {
        match self {
            FileRefusal::BufferTooShort { bytes } => bytes,
            FileRefusal::NotWellFormed | FileRefusal::BoundTooLarge => 0,
        }
    }
}

// The file's bytes, or 0 where it is certain that they fit: a word takes 7 bytes at most, and the first line 48.
fn bytes_needed(
    layout: &Layout,
    n: ListCounts,
    one: ListCounts,
    bound: usize,
    words: &mut [i32; WORDS],
    texts: &mut [u64],
    room: usize,
) -> usize
    requires { KnownCounts layout.now.model bound n × KnownCounts layout.now.model 1 one × (bound ≤ 64) × (length texts.old ≡ entry_count) }
    ensures { Needed (file layout.now.model bound) room result × (length texts.new ≡ entry_count) }
{
    if 7 * n.words + 48 <= room {
        return 0;
    }
    file_bytes(layout, n, one, bound, words, texts)
}

// The file, if it fits, of a bound of at most 64: 32. Where it might not fit, it is counted before its first byte is written.
fn write_if_it_fits(layout: &Layout, bound: usize, out: &mut [u8]) -> Result<usize, FileRefusal>
    requires { bound ≤ 64 }
    ensures result_value { file_told result ≡ file_report layout.now.model bound (length out.old) }
    ensures out_after { out.new ≡ file_left layout.now.model bound out.old }
{
    let n = list_counts(layout, bound);
    let one = list_counts(layout, 1);
    let mut words = [0; WORDS];
    let mut texts = [0; TEXTS];
    let needed = bytes_needed(layout, n, one, bound, &mut words, &mut texts, out.len());
    if out.len() < needed {
        return Err(FileRefusal::BufferTooShort { bytes: needed });
    }
    Ok(put_file(layout, n, one, bound, &mut words, &mut texts, out))
}

// The file for `bound`, and how many bytes it has: 20, 21, 32.
pub fn write_file(m: Model, bound: usize, out: &mut [u8]) -> Result<usize, FileRefusal>
    ensures result_value { file_told result ≡ file_report m bound (length out.old) }
    ensures out_after { out.new ≡ file_left m bound out.old }
{
    check_bound(m, bound)?;
    write_if_it_fits(&Layout::new(m), bound, out)
}

// There is a file: neither 20 nor 21.
fn has_file(m: Model, bound: usize) -> bool
    ensures { result ≡ has_file m bound }
{
    check_bound(m, bound).is_ok()
}

// How many rows there are to print.
pub fn rows_to_print(m: Model, bound: usize) -> usize
    ensures { (result ≡ rows_to_print m bound) × (result ≤ most_rows) }
{
    if !has_file(m, bound) {
        return 0;
    }
    bound + 3
}

// How many pages of row `row` there are to print.
pub fn pages_to_print(m: Model, bound: usize, row: usize) -> usize
    ensures { (result ≡ pages_to_print m bound row) × (result ≤ most_pages) }
{
    if !has_file(m, bound) {
        return 0;
    }
    pages_of(&Layout::new(m), bound, row)
}

// Page `p` of row `row` of a file, from the start of the buffer.
fn written_page(layout: &Layout, bound: usize, row: usize, p: usize, out: &mut [u8]) -> usize
    requires { (bound ≤ 64) × (row < row_count bound) × (p < pages_in layout.now.model bound row) × (most_page_bytes ≤ length out.old) }
    ensures { Printed (page_of layout.now.model bound row p) out.old out.new result }
{
    let n = list_counts(layout, bound);
    let mut words = [0; WORDS];
    let mut texts = [0; TEXTS];
    put_page(layout, n, bound, row, p, &mut words, &mut texts, out)
}

// Page `p` of row `row`: nothing where there is no file or no such page, and in a buffer of less than a page.
pub fn page(m: Model, bound: usize, row: usize, p: usize, out: &mut [u8]) -> usize
    ensures { Printed (page_text m bound row p (length out.old)) out.old out.new result }
{
    if rows_to_print(m, bound) <= row {
        return 0;
    }
    if pages_to_print(m, bound, row) <= p {
        return 0;
    }
    if out.len() < PAGE {
        return 0;
    }
    written_page(&Layout::new(m), bound, row, p, out)
}

// What the program is asked.
#[derive(Clone, Copy, Debug, PartialEq, Eq)]
pub struct Request {
    pub bound: usize,
    pub model: Model,
}

// Why the program's input is refused: the bound line, the model text, or a bound above 64.
#[derive(Clone, Copy, Debug, PartialEq, Eq)]
pub enum RequestRefusal {
    NotABound,
    Text(ReadRefusal),
    BoundTooLarge,
}

impl From<ReadRefusal> for RequestRefusal {
    ghost from_gives = { λ e r. r ≡ as_request_refusal e };

    fn from(refusal: ReadRefusal) -> RequestRefusal {
        RequestRefusal::Text(refusal)
    }
}

impl RequestRefusal {
    pub fn number(self) -> u8
        ensures { result ≡ (request_refusal self).number }
    {
        match self {
            RequestRefusal::NotABound => 9,
            RequestRefusal::Text(refusal) => refusal.number(),
            RequestRefusal::BoundTooLarge => 21,
        }
    }

    pub fn line(self) -> usize
        ensures { result ≡ (request_refusal self).line }
    {
        match self {
            RequestRefusal::Text(refusal) => refusal.line(),
            RequestRefusal::NotABound | RequestRefusal::BoundTooLarge => 0,
        }
    }
}

// The bound line and the model text of `input`: 9, then the text, then 21.
pub fn requested(input: &[u8]) -> Result<Request, RequestRefusal>
    ensures { request_told result ≡ request_report input.now }
{
    let item = read_item(input);
    let Some(line) = item.bound else {
        return Err(RequestRefusal::NotABound);
    };
    let model = item.text?;
    let bound = line.bound as usize;
    if bound > Model::STEPS {
        return Err(RequestRefusal::BoundTooLarge);
    }
    Ok(Request { bound, model })
}
