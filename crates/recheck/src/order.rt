//! The limit on what a route shares with the optimum, and the order of routes.

ghost use Rattle.std.specs.Prelude.{◌↔◌, IsTrue};
ghost use Rattle.std.specs.Option.{option_copied};
ghost use Rattle.road_model.specs.Fraction.{Allows};
ghost use Rattle.recheck.specs.Routes.{IsAfter};

use crate::basis::Basis;
use certificate_text::CertRoute;

/// Whether a route's shared length, as its line says it, is within the limit.
pub(crate) fn is_share_allowed(basis: &Basis, r: &CertRoute) -> bool
    ensures { IsTrue result ↔ Allows basis.now.query.gamma r.now.shared basis.now.best }
{
    basis.query.gamma.allows(r.shared, basis.best)
}

/// Whether a route comes after the one before it, where there is one: by rank, and by via at the same rank.
pub(crate) fn is_after(before: Option<&CertRoute>, r: &CertRoute) -> bool
    ensures { IsTrue result ↔ IsAfter (option_copied before.entry) r.now }
{
    match before {
        Some(other) => other.rank < r.rank || other.rank == r.rank && other.via < r.via,
        None => true,
    }
}
