//! Laws of worlds, each of which is a contract of a function that does nothing.

ghost use Rattle.std.specs.Prelude.{◌<◌, ℕ, List};
ghost use Rattle.road_model.specs.Graph.{Graph};
ghost use Rattle.desk_core.specs.declared.event.Event.{Event};
ghost use Rattle.desk_core.specs.declared.event.Outcome.{Outcome};
ghost use Rattle.desk_core.specs.Desks.{empty_desk};
ghost use Rattle.desk_core.specs.Worlds.{WorldState, started, own_requests, replies_to, IsAlone, IsWorldRun};

/// The replies to a caller are those that a desk gives to its allowed requests alone, each over its version of the last
/// list of batches, whatever the others ask and publish between them.
pub fn others_change_no_reply()
    ensures { (base : Graph) (callers c : ℕ) (events : List Event) (outcomes : List Outcome) (last : WorldState) →
        c < callers → IsWorldRun (started base callers) events outcomes last →
        IsAlone base last.history.batches (empty_desk 8) (own_requests c events outcomes) (replies_to c events outcomes) }
{}
