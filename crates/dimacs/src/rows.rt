// The clause list as text, row after row: row 0 is the start, then the steps, then the end. A row is written from the words of the row of its kind
// that begins at the first state block, with a table of the texts of its own numbers. A row of few enough words is written at once, and the words of
// one step are those of all; else piece after piece. What `words` and `texts` hold afterwards is free, but for the length of `texts`.
ghost use Rattle.std.specs.Prelude.{◌≡◌, true, ◌+◌, ◌-◌, ◌<◌, ◌≤◌, length};
ghost use Rattle.model.specs.Indexed.{each};
ghost use Rattle.model.specs.Automaton.{variables};
ghost use Rattle.list.specs.Items.{block_at};
ghost use Rattle.list.specs.Clauses.{one_hot_width, clauses};
ghost use Rattle.buffer.specs.Buffers.{Room, Wrote};
ghost use Rattle.counts.specs.KnownCounts.{KnownCounts};
ghost use Rattle.emission.specs.Cut.{row_pieces, piece_of, row_of, base_row, base_bound};
ghost use Rattle.dimacs.specs.File.{lines_of, file};
ghost use Rattle.dimacs.specs.Texts.{entry_count, TextsOf};
ghost use Rattle.dimacs.specs.Rows.{follows_step, repeats_row, FewWords, Holds};

use crate::WORDS;
use crate::lines::{first_line_bytes, put_first_line};
use crate::texts::{fill_texts, put_words, words_bytes};
use counts::ListCounts;
use decimal::places;
use emission::pieces::{put_piece, put_rows, row_pieces};
use parts::layout::Layout;

// The row of the same kind that begins at the first block.
fn base_row(row: usize) -> usize
    ensures { result ≡ base_row row }
{
    if row == 0 { 0 } else { 1 }
}

// The bound of the list that has it.
fn base_bound(bound: usize, row: usize) -> usize
    ensures { result ≡ base_bound bound row }
{
    if row <= bound { 1 } else { 0 }
}

// The words of piece `p` of row `row`, as at the first block.
pub fn put_base_piece(
    layout: &Layout,
    bound: usize,
    row: usize,
    p: usize,
    words: &mut [i32; WORDS],
) -> usize
    requires { (row ≤ bound + 1) × (p < row_pieces layout.now.model bound row) }
    ensures { Holds (piece_of layout.now.model (base_bound bound row) (base_row row) p) words.new result }
{
    put_piece(layout, base_bound(bound, row), base_row(row), p, words)
}

// The words of row `row`, as at the first block.
fn put_base_row(layout: &Layout, bound: usize, row: usize, words: &mut [i32; WORDS]) -> usize
    requires { (row ≤ bound + 1) × FewWords layout.now.model }
    ensures { Holds (row_of layout.now.model (base_bound bound row) (base_row row)) words.new result }
{
    put_rows(layout, base_bound(bound, row), base_row(row), 1, words)
}

// How many variables come before those that row `row` names.
fn row_start(layout: &Layout, row: usize) -> usize
    requires { (row ≤ 65) }
    ensures { result ≡ block_at one_hot_width layout.now.model (row - 1) }
{
    if row == 0 {
        return 0;
    }
    layout.block_start(row - 1)
}

// How many variables a row names at most: those of two states and of the choice between them.
fn row_width(layout: &Layout) -> usize
    ensures { result ≡ variables layout.now.model 1 }
{
    layout.block_start(1) + layout.totals.state
}

// Row `row` and the one before it are steps.
fn follows_step(bound: usize, row: usize) -> bool
    ensures { result ≡ follows_step bound row }
{
    2 <= row && row <= bound
}

// The table of the texts of row `row`.
pub fn fill_row(layout: &Layout, row: usize, texts: &mut [u64])
    requires { (row ≤ 65) × (length texts.old ≡ entry_count) }
    ensures { TextsOf (block_at one_hot_width layout.now.model (row - 1)) (variables layout.now.model 1) texts.new }
{
    fill_texts(row_start(layout, row), row_width(layout), texts);
}

// Row `row`, piece after piece.
fn put_cut_row(
    layout: &Layout,
    bound: usize,
    row: usize,
    words: &mut [i32; WORDS],
    texts: &[u64],
    out: &mut [u8],
    at: usize,
) -> usize
    requires { (bound ≤ 64) × (row ≤ bound + 1) × TextsOf (block_at one_hot_width layout.now.model (row - 1)) (variables layout.now.model 1) texts.now × Room (lines_of (row_of layout.now.model bound row)) out.old at }
    ensures { Wrote (lines_of (row_of layout.now.model bound row)) out.old out.new at result }
{
    let mut end = at;
    for p in 0..row_pieces(layout, bound, row) {
        let count = put_base_piece(layout, bound, row, p, words);
        end = put_words(&words[..count], texts, out, end);
    }
    end
}

// All rows, each piece after piece.
fn put_cut_rows(
    layout: &Layout,
    bound: usize,
    words: &mut [i32; WORDS],
    texts: &mut [u64],
    out: &mut [u8],
    at: usize,
) -> usize
    requires { (bound ≤ 64) × (length texts.old ≡ entry_count) × Room (lines_of (clauses layout.now.model bound)) out.old at }
    ensures { Wrote (lines_of (clauses layout.now.model bound)) out.old out.new at result }
{
    let mut end = at;
    for row in 0..bound + 2 {
        fill_row(layout, row, texts);
        end = put_cut_row(layout, bound, row, words, texts, out, end);
    }
    end
}

// The words of row `row`, as at the first block. Of a step after a step they are there: the first `held` ones.
fn put_row_words(
    layout: &Layout,
    bound: usize,
    row: usize,
    held: usize,
    words: &mut [i32; WORDS],
) -> usize
    requires { (row ≤ bound + 1) × FewWords layout.now.model × (follows_step bound row ≡ true → Holds (row_of layout.now.model 1 1) words.old held) }
    ensures { Holds (row_of layout.now.model (base_bound bound row) (base_row row)) words.new result }
{
    if follows_step(bound, row) {
        return held;
    }
    put_base_row(layout, bound, row, words)
}

// All rows, each at once.
fn put_whole_rows(
    layout: &Layout,
    bound: usize,
    words: &mut [i32; WORDS],
    texts: &mut [u64],
    out: &mut [u8],
    at: usize,
) -> usize
    requires { (bound ≤ 64) × FewWords layout.now.model × (length texts.old ≡ entry_count) × Room (lines_of (clauses layout.now.model bound)) out.old at }
    ensures { Wrote (lines_of (clauses layout.now.model bound)) out.old out.new at result }
{
    let mut end = at;
    let mut held: usize = 0;
    for row in 0..bound + 2 {
        fill_row(layout, row, texts);
        held = put_row_words(layout, bound, row, held, words);
        end = put_words(&words[..held], texts, out, end);
    }
    end
}

// The whole file. `one` has the counts of the list for one step.
pub fn put_file(
    layout: &Layout,
    n: ListCounts,
    one: ListCounts,
    bound: usize,
    words: &mut [i32; WORDS],
    texts: &mut [u64],
    out: &mut [u8],
) -> usize
    requires { KnownCounts layout.now.model bound n × KnownCounts layout.now.model 1 one × (bound ≤ 64) × (length texts.old ≡ entry_count) × Room (file layout.now.model bound) out.old 0 }
    ensures { Wrote (file layout.now.model bound) out.old out.new 0 result }
{
    let start = put_first_line(n.variables, n.clauses, out, 0);
    if one.words <= WORDS {
        return put_whole_rows(layout, bound, words, texts, out, start);
    }
    put_cut_rows(layout, bound, words, texts, out, start)
}

// How many bytes row `row` takes, piece after piece.
fn cut_row_bytes(
    layout: &Layout,
    bound: usize,
    row: usize,
    words: &mut [i32; WORDS],
    texts: &[u64],
) -> usize
    requires { (bound ≤ 64) × (row ≤ bound + 1) × TextsOf (block_at one_hot_width layout.now.model (row - 1)) (variables layout.now.model 1) texts.now }
    ensures { (result ≡ length (lines_of (row_of layout.now.model bound row))) }
{
    let mut bytes: usize = 0;
    for piece in 0..row_pieces(layout, bound, row) {
        let count = put_base_piece(layout, bound, row, piece, words);
        bytes += words_bytes(&words[..count], texts);
    }
    bytes
}

// How many bytes row `row` takes.
fn row_bytes(
    layout: &Layout,
    one: ListCounts,
    bound: usize,
    row: usize,
    words: &mut [i32; WORDS],
    texts: &mut [u64],
) -> usize
    requires { KnownCounts layout.now.model 1 one × (bound ≤ 64) × (row ≤ bound + 1) × (length texts.old ≡ entry_count) }
    ensures { (result ≡ length (lines_of (row_of layout.now.model bound row))) × (length texts.new ≡ entry_count) }
{
    fill_row(layout, row, texts);
    if one.words <= WORDS {
        let count = put_base_row(layout, bound, row, words);
        return words_bytes(&words[..count], texts);
    }
    cut_row_bytes(layout, bound, row, words, texts)
}

// Row `row` and the one before it are steps, and all their numbers have as many digits.
fn repeats_row(layout: &Layout, bound: usize, row: usize) -> bool
    requires { (bound ≤ 64) }
    ensures { result ≡ repeats_row layout.now.model bound row }
{
    if !follows_step(bound, row) {
        return false;
    }
    let least = row_start(layout, row - 1) + 1;
    let greatest = row_start(layout, row) + row_width(layout);
    places(least) == places(greatest)
}

// How many bytes row `row` takes, after one of `last` bytes: as many, where it repeats it.
fn next_row_bytes(
    layout: &Layout,
    one: ListCounts,
    bound: usize,
    row: usize,
    last: usize,
    words: &mut [i32; WORDS],
    texts: &mut [u64],
) -> usize
    requires { KnownCounts layout.now.model 1 one × (bound ≤ 64) × (row ≤ bound + 1) × (length texts.old ≡ entry_count) × (1 ≤ row → last ≡ length (lines_of (row_of layout.now.model bound (row - 1)))) }
    ensures { (result ≡ length (lines_of (row_of layout.now.model bound row))) × (length texts.new ≡ entry_count) }
{
    if repeats_row(layout, bound, row) {
        return last;
    }
    row_bytes(layout, one, bound, row, words, texts)
}

// How many bytes the whole file takes.
pub fn file_bytes(
    layout: &Layout,
    n: ListCounts,
    one: ListCounts,
    bound: usize,
    words: &mut [i32; WORDS],
    texts: &mut [u64],
) -> usize
    requires { KnownCounts layout.now.model bound n × KnownCounts layout.now.model 1 one × (bound ≤ 64) × (length texts.old ≡ entry_count) }
    ensures { (result ≡ length (file layout.now.model bound)) × (length texts.new ≡ entry_count) }
{
    let mut bytes = first_line_bytes(n.variables, n.clauses);
    let mut last: usize = 0;
    for row in 0..bound + 2 {
        last = next_row_bytes(layout, one, bound, row, last, words, texts);
        bytes += last;
    }
    bytes
}
