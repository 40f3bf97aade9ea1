// Bytes of a model text: places, numbers, keys, items, and the faults of a line.
ghost use Rattle.std.specs.Prelude.{◌≡◌, ℕ, List, ◌-◌, ◌≤◌, length, take, drop, get_or, [], ◌∷◌, slice_set};
ghost use mathlib.Core.List.{foldl};
ghost use Rattle.text.specs.bytes.Bytes.{Found, LeadingDigits, number_of, narrowed, leading, following, assigns, is_hyphen, items_of, counted};
ghost use Rattle.text.specs.bytes.Faulty.{Checked};
ghost use Rattle.text.specs.bytes.Absorbing.{Absorbs};

// What is wrong with the value of a line, a flag for each test of it. `unordered`: a counter is set twice, or the clocks that are reset
// do not rise strictly.
#[derive(Clone, Copy, Debug, PartialEq, Eq)]
pub struct Faults {
    pub malformed: bool,
    pub crowded: bool,
    pub outside: bool,
    pub undeclared: bool,
    pub unordered: bool,
}

// The first test of a line that fails.
#[derive(Clone, Copy, Debug, PartialEq, Eq)]
pub enum LineFault {
    NotDue,
    NotOfItsForm,
    TooManyItems,
    OutOfRange,
    NotDeclared,
    SetTwiceOrNotRising,
}

impl Faults {
    pub const NONE: Faults = Faults {
        malformed: false,
        crowded: false,
        outside: false,
        undeclared: false,
        unordered: false,
    };

    // The whole value is tried in this order: 3, 7, 4, 5, 6.
    pub fn check(self) -> Result<(), LineFault>
        ensures { Checked self tt result }
    {
        if self.malformed {
            return Err(LineFault::NotOfItsForm);
        }
        if self.crowded {
            return Err(LineFault::TooManyItems);
        }
        if self.outside {
            return Err(LineFault::OutOfRange);
        }
        if self.undeclared {
            return Err(LineFault::NotDeclared);
        }
        if self.unordered {
            return Err(LineFault::SetTwiceOrNotRising);
        }
        Ok(())
    }
}

// A number that fits a byte, or else 0.
pub fn narrow(n: u16) -> u8
    ensures { result ≡ narrowed n }
{
    u8::try_from(n).unwrap_or(0)
}

// The place of the first `b` at or after `at`.
pub fn find(s: &[u8], at: usize, b: u8) -> Option<usize>
    requires { at ≤ length s.now }
    ensures { Found b at s.now result }
{
    let place = s[at..].iter().position(|x| *x == b)?;
    Some(at + place)
}

// A digit's value; of a byte below '0' it is 0, as the difference of natural numbers is.
fn digit(b: u8) -> u16
    ensures { result ≡ b - 48 }
{
    b.saturating_sub(b'0') as u16
}

fn one_digit(a: u8) -> Option<u16>
    ensures { result ≡ number_of (a ∷ []) }
{
    a.is_ascii_digit().then_some(digit(a))
}

fn two_digits(a: u8, b: u8) -> Option<u16>
    ensures { result ≡ number_of (a ∷ b ∷ []) }
{
    (a.is_ascii_digit() & b.is_ascii_digit() & (a != b'0')).then_some(digit(a) * 10 + digit(b))
}

fn three_digits(a: u8, b: u8, c: u8) -> Option<u16>
    ensures { result ≡ number_of (a ∷ b ∷ c ∷ []) }
{
    (a.is_ascii_digit() & b.is_ascii_digit() & c.is_ascii_digit() & (a != b'0')).then_some(
        (digit(a) * 10 + digit(b)) * 10 + digit(c),
    )
}

// 1 to 3 digits, no leading zero except 0 itself.
pub fn number(s: &[u8]) -> Option<u16>
    ensures { result ≡ number_of s.now }
{
    match s {
        [a] => one_digit(*a),
        [a, b] => two_digits(*a, *b),
        [a, b, c] => three_digits(*a, *b, *c),
        _ => None,
    }
}

// How many digits the slice begins with.
fn digits(s: &[u8]) -> usize
    ensures { LeadingDigits s.now result }
{
    s.iter().take_while(|b| b.is_ascii_digit()).count()
}

// The number that the leading digits are, and what follows them.
pub fn leading(s: &[u8]) -> (Option<u16>, &[u8])
    ensures { (result.0 ≡ leading s.now) × (result.1.now ≡ following s.now) }
{
    let d = digits(s);
    (number(head(s, d)), tail(s, d))
}

// A hyphen alone.
fn is_hyphen(s: &[u8]) -> bool
    ensures { result ≡ is_hyphen s.now }
{
    match s {
        [b] => *b == b'-',
        _ => false,
    }
}

// The bytes from a place on: none where it lies past the end.
pub fn tail(s: &[u8], a: usize) -> &[u8]
    ensures { result.now ≡ drop a s.now }
{
    &s[a.min(s.len())..]
}

// The first bytes, at most all.
fn head(s: &[u8], e: usize) -> &[u8]
    ensures { result.now ≡ take e s.now }
{
    &s[..e.min(s.len())]
}

// The byte at a place, or 0 past the end.
pub fn byte(s: &[u8], i: usize) -> u8
    ensures { result ≡ get_or s.now i 0 }
{
    s.get(i).copied().unwrap_or(0)
}

// Whether := stands at the front.
pub fn assigns(s: &[u8]) -> bool
    ensures { result ≡ assigns s.now }
{
    s.starts_with(b":=")
}

// The items of a value, one after the other, each taken up into a state: what stands between the commas, and none where a hyphen stands alone.
pub fn absorbed<S, F: FnMut(S, &[u8]) -> S>(v: &[u8], start: S, absorb: F) -> S
    requires { (state : F) (s : S) (x : _) → F.pre state s x }
    ensures { (h : S → List ℕ → S) → Absorbs F.FnMut absorb h → result ≡ foldl h start (items_of v.now) }
{
    if is_hyphen(v) {
        start
    } else {
        v.split(|b| *b == b',').fold(start, absorb)
    }
}

// One more in slot k, if there is such a slot.
pub fn put<T: Copy>(slots: &mut [T], k: usize, item: T)
    ensures { slots.new ≡ slice_set slots.old k item }
{
    if k < slots.len() {
        slots[k] = item;
    }
}

// How many of n slots are filled after one more item, where k were filled before it.
pub fn next_count(n: usize, k: usize) -> usize
    ensures { result ≡ counted n k }
{
    if k < n { k + 1 } else { k }
}
