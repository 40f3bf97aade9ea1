// The variables that an assignment has room for.
ghost use Rattle.std.specs.Prelude.{◌<◌};

// The variables 1 to `most`. No buffer is as long as 2 to the 63.
#[derive(Clone, Copy, Debug, PartialEq, Eq)]
pub struct Variables {
    pub most: usize,
    ghost few: { most < 9223372036854775808 },
}

impl Variables {
    // A tenth of 2 to the 63, which no buffer's length reaches.
    pub const TENTH: usize = 922337203685477580;
}
