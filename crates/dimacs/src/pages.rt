// The pages of the file, as the program prints them.
ghost use Rattle.std.specs.Prelude.{◌≡◌, ◌<◌, ◌≤◌, length};
ghost use Rattle.buffer.specs.Buffers.{Room, Wrote};
ghost use Rattle.counts.specs.KnownCounts.{KnownCounts};
ghost use Rattle.dimacs.specs.Texts.{entry_count};
ghost use Rattle.dimacs.specs.Pages.{most_pages, row_count, pages_in, page_of};

use crate::WORDS;
use crate::lines::put_first_line;
use crate::rows::{fill_row, put_base_piece};
use crate::texts::put_words;
use counts::ListCounts;
use emission::pieces::row_pieces;
use parts::layout::Layout;

// How many pages row `row` has.
pub fn pages_of(layout: &Layout, bound: usize, row: usize) -> usize
    requires { (bound ≤ 64) }
    ensures { (result ≡ pages_in layout.now.model bound row) × (result ≤ most_pages) }
{
    if row == 0 {
        return 1;
    }
    row_pieces(layout, bound, row - 1)
}

// Page `p` of row `row`; its words are written into `words` first.
pub fn put_page(
    layout: &Layout,
    n: ListCounts,
    bound: usize,
    row: usize,
    p: usize,
    words: &mut [i32; WORDS],
    texts: &mut [u64],
    out: &mut [u8],
) -> usize
    requires { KnownCounts layout.now.model bound n × (bound ≤ 64) × (row < row_count bound) × (p < pages_in layout.now.model bound row) × (length texts.old ≡ entry_count) × Room (page_of layout.now.model bound row p) out.old 0 }
    ensures { Wrote (page_of layout.now.model bound row p) out.old out.new 0 result }
{
    if row == 0 {
        return put_first_line(n.variables, n.clauses, out, 0);
    }
    fill_row(layout, row - 1, texts);
    let count = put_base_piece(layout, bound, row - 1, p, words);
    put_words(&words[..count], texts, out, 0)
}
