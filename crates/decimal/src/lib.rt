// Bytes and decimal numbers, written into a lent buffer.
#![tactic(auto)]

ghost use Rattle.std.specs.Prelude.{◌≡◌, [], ◌∷◌, ℕ, ◌/◌, ◌%◌, ◌<◌, ◌≤◌, length};
ghost use Rattle.buffer.specs.Buffers.{Room, Wrote};
ghost use Rattle.decimal.specs.Decimal.{digit, digits};

// One byte.
pub fn put_byte(b: u8, out: &mut [u8], at: usize) -> usize
    requires { Room (b ∷ []) out.old at }
    ensures { Wrote (b ∷ []) out.old out.new at result }
{
    out[at] = b;
    at + 1
}

// A text of bytes.
pub fn put_bytes(text: &[u8], out: &mut [u8], at: usize) -> usize
    requires { Room text.now out.old at }
    ensures { Wrote text.now out.old out.new at result }
{
    let end = at + text.len();
    out[at..end].copy_from_slice(text);
    end
}

// How many digits a number has.
pub fn places(n: usize) -> usize
    ensures { (result ≡ length (digits n)) × (1 ≤ result) × (result ≤ 20) }
{
    if n < 10 {
        return 1;
    }
    if n < 100 {
        return 2;
    }
    if n < 1000 {
        return 3;
    }
    if n < 10000 {
        return 4;
    }
    if n < 100000 {
        return 5;
    }
    5 + places(n / 100000)
}

// A number below 100, in two digits.
fn put_two(n: usize, out: &mut [u8], at: usize) -> usize
    requires { (n < 100) × Room (digit (n / 10) ∷ digit (n % 10) ∷ []) out.old at }
    ensures { Wrote (digit (n / 10) ∷ digit (n % 10) ∷ []) out.old out.new at result }
{
    let tens = put_byte(48 + (n / 10) as u8, out, at);
    put_byte(48 + (n % 10) as u8, out, tens)
}

// The digits of a number below 100.
fn put_below_hundred(n: usize, out: &mut [u8], at: usize) -> usize
    requires { (n < 100) × Room (digits n) out.old at }
    ensures { Wrote (digits n) out.old out.new at result }
{
    if n < 10 {
        return put_byte(48 + n as u8, out, at);
    }
    put_two(n, out, at)
}

// The digits of a number below 10,000.
fn put_below_ten_thousand(n: usize, out: &mut [u8], at: usize) -> usize
    requires { (n < 10000) × Room (digits n) out.old at }
    ensures { Wrote (digits n) out.old out.new at result }
{
    if n < 100 {
        return put_below_hundred(n, out, at);
    }
    let hundreds = put_below_hundred(n / 100, out, at);
    put_two(n % 100, out, hundreds)
}

// The digits of a number.
pub fn put_number(n: usize, out: &mut [u8], at: usize) -> usize
    requires { Room (digits n) out.old at }
    ensures { Wrote (digits n) out.old out.new at result }
{
    if n < 10000 {
        return put_below_ten_thousand(n, out, at);
    }
    if n < 1000000 {
        let hundreds = put_below_ten_thousand(n / 100, out, at);
        return put_two(n % 100, out, hundreds);
    }
    let hundreds = put_number(n / 100, out, at);
    put_two(n % 100, out, hundreds)
}
