// Words as text, by a table of the texts of numbers: each clause a line. An entry of the table is a text of at most 7 bytes, the first byte
// lowest; the highest byte says how many they are.
ghost use Rattle.std.specs.Prelude.{◌≡◌, ◌+◌, ◌*◌, ◌/◌, ◌%◌, ◌<◌, ◌≤◌, ◌^◌, nat_abs, length, get_or};
ghost use Rattle.list.specs.Lists.{All};
ghost use Rattle.buffer.specs.Buffers.{Room, Wrote};
ghost use Rattle.emission.specs.Cut.{most_piece_words};
ghost use Rattle.dimacs.specs.Texts.{text_of, bytes_of, number_text, Entry, Leads};
ghost use Rattle.dimacs.specs.Texts.{most_near, entry_count, slot, entries_text, HasText, TextsOf, Ahead};

use decimal::put_bytes;

// The highest byte of an entry counts: 2 ^ 56.
const COUNT: u64 = 72057594037927936;

// The entry of a text with one byte more before it.
fn led(b: u64, x: u64) -> u64
    requires { (b < 256) × (x / 2 ^ 56 ≤ 6) × (x % 2 ^ 56 < 2 ^ 48) }
    ensures { Leads b x result }
{
    x % COUNT * 256 + b + (x / COUNT + 1) * COUNT
}

// The entry of a number with a space after it.
fn number_text(n: usize) -> u64
    requires { n < 100000 }
    ensures { Entry (number_text n) result }
{
    let d = n as u64;
    let one = led(48 + d % 10, 32 + COUNT);
    if d < 10 {
        return one;
    }
    let two = led(48 + d / 10 % 10, one);
    if d < 100 {
        return two;
    }
    let three = led(48 + d / 100 % 10, two);
    if d < 1000 {
        return three;
    }
    let four = led(48 + d / 1000 % 10, three);
    if d < 10000 {
        return four;
    }
    led(48 + d / 10000, four)
}

// Where those variables after `i`, up to `n`, end whose numbers, raised by `o`, differ in the last digit alone.
fn ten_end(o: usize, i: usize, n: usize) -> usize
    requires { (i < n) × (o + n < 100000) }
    ensures { (i < result) × (result ≤ n) × ((o + result) / 10 ≡ (o + (i + 1)) / 10) }
{
    (i + 10 - (o + (i + 1)) % 10).min(n)
}

// The table of the words of up to `i` variables goes on up to `j`. The numbers of these differ in the last digit alone: from one to the next
// the byte before the space rises by 1.
fn fill_ten(o: usize, i: usize, j: usize, texts: &mut [u64])
    requires { TextsOf o i texts.old × (i < j) × (j ≤ most_near) × (o + j < 100000) × ((o + j) / 10 ≡ (o + (i + 1)) / 10) }
    ensures { TextsOf o j texts.new }
{
    let mut x = number_text(o + (i + 1));
    let rise = 1 << (x / COUNT * 8 - 16);
    for k in i..j {
        let v = k + 1;
        texts[608 + v] = x;
        texts[608 - v] = led(45, x);
        x += rise;
    }
}

// The table of the words of up to `n` variables, raised by `o`.
pub fn fill_texts(o: usize, n: usize, texts: &mut [u64])
    requires { (length texts.old ≡ entry_count) × (n ≤ most_near) × (o + n < 100000) }
    ensures { TextsOf o n texts.new }
{
    texts[608] = 48 + 10 * 256 + 2 * COUNT;
    let mut i = 0;
    while i < n {
        let j = ten_end(o, i, n);
        fill_ten(o, i, j, texts);
        i = j;
    }
}

// The entry of a word.
fn entry(w: i32, texts: &[u64]) -> u64
    requires { (nat_abs w ≤ most_near) × (length texts.now ≡ entry_count) }
    ensures { result ≡ get_or texts.now (slot w) 0 }
{
    texts[(608 + w) as usize]
}

// The eight bytes of an entry.
fn put_eight(x: u64, out: &mut [u8], at: usize)
    requires { at + 8 ≤ length out.old }
    ensures { Wrote (bytes_of 8 x) out.old out.new at (at + 8) }
{
    out[at..at + 8].copy_from_slice(&x.to_le_bytes());
}

// Words, eight bytes stored for each: up to 6 bytes beyond the text are overwritten.
fn put_ahead(words: &[i32], texts: &[u64], out: &mut [u8], at: usize) -> usize
    requires { (length texts.now ≡ entry_count) × All (HasText texts.now) words.now × (at + length (entries_text texts.now words.now) + 6 ≤ length out.old) }
    ensures { Ahead (entries_text texts.now words.now) out.old out.new at result }
{
    let mut end = at;
    for w in words {
        let x = entry(*w, texts);
        put_eight(x, out, end);
        end += (x / COUNT) as usize;
    }
    end
}

// The text of an entry.
fn put_text(x: u64, out: &mut [u8], at: usize) -> usize
    requires { (x / 2 ^ 56 ≤ 7) × Room (text_of x) out.old at }
    ensures { Wrote (text_of x) out.old out.new at result }
{
    put_bytes(&x.to_le_bytes()[..(x / COUNT) as usize], out, at)
}

// Words, each byte by byte.
fn put_exact(words: &[i32], texts: &[u64], out: &mut [u8], at: usize) -> usize
    requires { (length texts.now ≡ entry_count) × All (HasText texts.now) words.now × Room (entries_text texts.now words.now) out.old at }
    ensures { Wrote (entries_text texts.now words.now) out.old out.new at result }
{
    let mut end = at;
    for w in words {
        end = put_text(entry(*w, texts), out, end);
    }
    end
}

// Words. All but the last three are stored eight bytes at a time: what is beyond a text is covered by those after it, which have two bytes at
// least.
pub fn put_words(words: &[i32], texts: &[u64], out: &mut [u8], at: usize) -> usize
    requires { (length texts.now ≡ entry_count) × All (HasText texts.now) words.now × Room (entries_text texts.now words.now) out.old at }
    ensures { Wrote (entries_text texts.now words.now) out.old out.new at result }
{
    if words.len() < 3 {
        return put_exact(words, texts, out, at);
    }
    let (ahead, last) = words.split_at(words.len() - 3);
    let end = put_ahead(ahead, texts, out, at);
    put_exact(last, texts, out, end)
}

// How many bytes words take.
pub fn words_bytes(words: &[i32], texts: &[u64]) -> usize
    requires { (length words.now ≤ most_piece_words) × (length texts.now ≡ entry_count) × All (HasText texts.now) words.now }
    ensures { result ≡ length (entries_text texts.now words.now) }
{
    let mut bytes: usize = 0;
    for w in words {
        bytes += (entry(*w, texts) / COUNT) as usize;
    }
    bytes
}
