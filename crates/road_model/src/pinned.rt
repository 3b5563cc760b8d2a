ghost use Rattle.std.specs.Prelude.{◌≡◌};

use crate::Planner;
use std::alloc::Global;
use std::marker::Model;
use std::sync::Arc;

/// The version that answers a request, with its number. To a clause it is the version.
#[derive(Drop)]
pub struct Pinned<P: Planner> {
    number: u64,
    prepared: Arc<P, Global>,
}

impl<P: Planner> Model for Pinned<P> {
    ghost use Rattle.std.specs.Prelude.{◌≡◌};

    ghost Value = { P };

    ghost coded = { P.code };

    ghost view = { λ p. p.prepared.value };

    ghost invariant = { λ p. p.number ≡ P.version p.prepared.value };
}

impl<P: Planner> Pinned<P> {
    /// Pins a version. Takes no memory.
    pub fn of(prepared: Arc<P, Global>) -> Pinned<P>
        ensures { result ≡ prepared.value }
    {
        let number = prepared.number();
        Pinned { number, prepared }
    }

    /// The number of the version.
    pub fn number(&self) -> u64
        ensures { result ≡ P.version self.now }
    {
        self.number
    }

    /// The version itself.
    pub fn prepared(&self) -> &P
        ensures { result.now ≡ self.now }
    {
        &self.prepared
    }
}
