// Two models composed into one, and what a step of it is in each of them.
#![tactic(auto)]

ghost use Rattle.std.specs.Prelude.{◌≡◌};
ghost use Rattle.compose.specs.ComposeCall.{compose_report, compose_number, compose_told};
ghost use Rattle.compose.specs.Parts.{parts_report, parts_number, parts_told};

use crate::pair::Pair;
use model::Model;

mod fit;
mod formed;
mod joined;
pub mod moves;
mod pair;

// Why two models are not composed.
#[derive(Clone, Copy, Debug, PartialEq, Eq)]
pub enum ComposeRefusal {
    NotWellFormed = 20,
    TooLarge = 38,
}

// What a step byte of the composed model is in each part: the part's own step byte, or 255 where it stands still.
#[derive(Clone, Copy, Debug, PartialEq, Eq)]
pub struct PartSteps {
    pub first: u8,
    pub second: u8,
}

// Why a byte is no step of the composed model.
#[derive(Clone, Copy, Debug, PartialEq, Eq)]
pub enum PartsRefusal {
    NotWellFormed = 20,
    TooLarge = 38,
    NoSuchChoice = 27,
}

impl ComposeRefusal {
    pub fn number(self) -> u8
        ensures { result ≡ compose_number self }
    {
        self as u8
    }
}

impl PartsRefusal {
    pub fn number(self) -> u8
        ensures { result ≡ parts_number self }
    {
        self as u8
    }
}

impl From<ComposeRefusal> for PartsRefusal {
    ghost from_gives = { λ e r. parts_number r ≡ compose_number e };

    fn from(refusal: ComposeRefusal) -> PartsRefusal {
        match refusal {
            ComposeRefusal::NotWellFormed => PartsRefusal::NotWellFormed,
            ComposeRefusal::TooLarge => PartsRefusal::TooLarge,
        }
    }
}

// Two models as one: 20, 38.
pub fn compose(a: Model, b: Model) -> Result<Model, ComposeRefusal>
    ensures { compose_told result ≡ compose_report a b }
{
    Ok(Pair::new(a, b)?.composed())
}

// What a step byte of the composed model is in each part: 20, 38, 27.
pub fn part_steps(a: Model, b: Model, byte: u8) -> Result<PartSteps, PartsRefusal>
    ensures { parts_told result ≡ parts_report a b byte }
{
    Pair::new(a, b)?.steps(byte)
}
