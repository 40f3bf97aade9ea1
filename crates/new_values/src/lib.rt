// New values of counters.
#![tactic(auto)]

ghost use Rattle.std.specs.Prelude.{◌≡◌, nat_abs};
ghost use Rattle.new_values.specs.NewValues.{in_range, shifted};

// The value `v`, if it lies in 0 to `greatest`.
pub fn in_range(greatest: u8, v: u16) -> Option<u8>
    ensures { result ≡ in_range greatest v }
{
    if v <= u16::from(greatest) {
        Some(v as u8)
    } else {
        None
    }
}

// The offset without its sign.
pub fn amount(z: i8) -> u8
    ensures { result ≡ nat_abs z }
{
    z.unsigned_abs()
}

// `v` plus an offset, if it lies in 0 to `greatest`.
pub fn shift(offset: i8, greatest: u8, v: u8) -> Option<u8>
    ensures { result ≡ shifted offset greatest v }
{
    if offset < 0 {
        let lowered = v.checked_sub(amount(offset))?;
        in_range(greatest, u16::from(lowered))
    } else {
        in_range(greatest, u16::from(v) + u16::from(amount(offset)))
    }
}
