//! What a plan is kept under.

ghost use Rattle.std.specs.Prelude.{◌≡◌};
ghost use Rattle.std.specs.Cmp.{partial_equiv_from_equiv};
ghost use Rattle.desk_core.specs.States.{key_in, same_key};
ghost use Rattle.desk_core.specs.KeyLaws.{hash_writes, same_key_equivalence, same_key_hashes};

use road_model::{CursorQuery, Request};
use std::hash::{Hash, Hasher};
use std::marker::Model;

/// A version, and the numbers of a query as they were given.
#[derive(Drop)]
pub struct PlanKey {
    pub version: u64,
    pub query: CursorQuery,
}

impl Model for PlanKey {
    ghost use Rattle.desk_core.specs.States.{Key};

    ghost Value = { Key };

    ghost view = { λ k. record { version = k.version; query = k.query } };
}

impl PartialEq for PlanKey {
    ghost eq = { same_key };

    ghost laws = { partial_equiv_from_equiv same_key_equivalence };

    fn eq(&self, other: &PlanKey) -> bool {
        self.version == other.version && self.query == other.query
    }
}

impl Eq for PlanKey {
    ghost laws = { same_key_equivalence };
}

impl Hash for PlanKey {
    ghost hash_input = { hash_writes };

    ghost respects_eq = { same_key_hashes };

    // A desk keeps few plans, and most of them differ in these three.
    fn hash<H: Hasher>(&self, state: &mut H) {
        state.write_u64(self.version);
        state.write_u64(self.query.from);
        state.write_u64(self.query.to);
    }
}

/// The key that a request asks by, where this version is pinned.
pub fn asked_key(number: u64, request: &Request) -> Option<PlanKey>
    ensures { result ≡ key_in number request.now }
{
    match request {
        Request::Route { query, .. } => Some(PlanKey {
            version: number,
            query: *query,
        }),
        Request::Next { cursor } => Some(PlanKey {
            version: cursor.version,
            query: cursor.query,
        }),
        _ => None,
    }
}
