//! Laws of runs of requests, each of which is a contract of a function that does nothing.

ghost use Rattle.std.specs.Prelude.{◌≡◌, ◌≤◌, ℕ, List, Option};
ghost use Rattle.road_model.specs.declared.answer.Optimum.{Optimum};
ghost use Rattle.road_model.specs.declared.answer.PageSpan.{PageSpan};
ghost use Rattle.road_model.specs.declared.answer.Plan.{Plan};
ghost use Rattle.road_model.specs.declared.answer.Query.{Query};
ghost use Rattle.road_model.specs.declared.answer.Route.{Route};
ghost use Rattle.road_model.specs.declared.change.Change.{Change};
ghost use Rattle.road_model.specs.declared.request.Cursor.{Cursor};
ghost use Rattle.road_model.specs.declared.request.CursorQuery.{CursorQuery};
ghost use Rattle.road_model.specs.declared.request.Reply.{Reply};
ghost use Rattle.road_model.specs.declared.request.Reply.TheVariants as reply;
ghost use Rattle.road_model.specs.declared.request.Request.{Request};
ghost use Rattle.road_model.specs.declared.request.Request.TheVariants as the;
ghost use Rattle.road_model.specs.Graph.{Graph};
ghost use Rattle.desk_core.specs.States.{State, newest, graph_at, published, staging};
ghost use Rattle.desk_core.specs.Replies.{IsStep};
ghost use Rattle.desk_core.specs.Runs.{Turn, IsRun, Follow, PagesJoin, HasReplyChain};
ghost use Rattle.desk_core.specs.Desks.{DeskState, IsDeskStep, ShowsSpan};
ghost use Rattle.desk_core.specs.KeptAnswers.{AreAnswers, with_desk};

/// A version keeps its graph, whatever is published after it.
pub fn a_version_keeps_its_graph()
    ensures { (g : Graph) (state last : State) (turns : List Turn) (number : ℕ) → IsRun g state turns last →
        number ≤ newest state → graph_at g last number ≡ graph_at g state number }
{}

/// In a run the pages of an answer, from a first one along the cursors to the last, are of one version, and joined
/// they are the optimum and exactly the alternatives of that version, each once, in rank order.
pub fn pages_of_a_run_join()
    ensures { (g : Graph) (state last : State) (turns : List Turn) (q : CursorQuery) (size : ℕ)
        (since : Option ℕ) (pages : List (ℕ × PageSpan)) → IsRun g state turns last →
        Follow (the.Route q size since) turns pages → PagesJoin g state last q since pages }
{}

/// The cursors of an answer lead to its last page, in no more pages than it has items.
pub fn a_chain_ends()
    ensures { (number : ℕ) (q : Query) (size : ℕ) (optimum : Optimum) (others : List Route) → 1 ≤ size →
        HasReplyChain number q size optimum others }
{}

/// The steps of one desk are steps of a run: where its plans are answers of the versions that they are kept under, and
/// the newest version is pinned.
pub fn a_desk_step_is_a_step()
    ensures step { (g : Graph) (state : State) (desk next : DeskState) (request : Request) (r : Reply)
        (shown : Option Plan) → AreAnswers g state desk →
        IsDeskStep (newest state) (graph_at g state (newest state)) desk request r shown next →
        IsStep g (with_desk state desk) request r shown (with_desk state next) }
    ensures kept { (g : Graph) (state : State) (desk next : DeskState) (request : Request) (r : Reply)
        (shown : Option Plan) → AreAnswers g state desk →
        IsDeskStep (newest state) (graph_at g state (newest state)) desk request r shown next →
        AreAnswers g state next }
{}

/// The plans that a desk keeps stay answers, whatever is staged and published.
pub fn kept_answers_stay_answers()
    ensures staged { (g : Graph) (state : State) (change : Change) (desk : DeskState) →
        AreAnswers g state desk → AreAnswers g (staging state change) desk }
    ensures published { (g : Graph) (state : State) (desk : DeskState) →
        AreAnswers g state desk → AreAnswers g (published state) desk }
{}

/// Where a desk replies with a page, the plan that it shows has the items of the page.
pub fn a_page_shows_its_plan()
    ensures { (number m : ℕ) (g : Graph) (desk next : DeskState) (request : Request) (r : Reply)
        (shown : Option Plan) (span : PageSpan) (more : Option Cursor) →
        IsDeskStep number g desk request r shown next → r ≡ reply.Page m span more → ShowsSpan span shown }
{}
