// A well-formed model.
ghost use Rattle.std.specs.Prelude.{◌≡◌, true, take, length};
ghost use Rattle.model.specs.Form.{well_formed};

use crate::ComposeRefusal;
use form::well_formed;
use model::{Edge, Invariant, Model};

#[derive(Clone, Copy)]
pub(crate) struct Formed {
    pub(crate) model: Model,
    ghost formed: { well_formed model ≡ true },
    ghost invariants_long: { length model.invariants ≡ 16 },
    ghost edges_long: { length model.edges ≡ 32 },
}

impl Formed {
    ghost use Rattle.std.specs.Prelude.{false, IfOk, IfErr};
    ghost use Rattle.compose.specs.declared.ComposeRefusal.TheVariants.{NotWellFormed};

    // The model, if it is well formed.
    pub(crate) fn new(model: Model) -> Result<Formed, ComposeRefusal>
        ensures ok { IfOk result (λ f. f.model ≡ model) }
        ensures err { IfErr result (λ e. (e ≡ NotWellFormed) × (well_formed model ≡ false)) }
    {
        if well_formed(model) {
            Ok(Formed { model })
        } else {
            Err(ComposeRefusal::NotWellFormed)
        }
    }

    // The invariants of the declared locations.
    pub(crate) fn invariants(&self) -> &[Invariant]
        ensures { result.now ≡ take self.now.model.locations self.now.model.invariants }
    {
        &self.model.invariants[..self.model.locations as usize]
    }

    // The declared edges.
    pub(crate) fn edges(&self) -> &[Edge]
        ensures { result.now ≡ take self.now.model.used self.now.model.edges }
    {
        &self.model.edges[..self.model.used as usize]
    }
}
