//! The top call.

ghost use Rattle.std.specs.Prelude.{◌≡◌, ◌≢◌, ◌↔◌, ◌≤◌, ◌⊎◌, ℕ, None, Some, IfSome, map, string_bytes};
ghost use Rattle.road_io.specs.Told.{IfTold};
ghost use Rattle.road_io.specs.Count.{HasRisen};
ghost use Rattle.road_io.specs.Shelf.{with_name};
ghost use Rattle.dimacs_reader.specs.declared.fault.GraphFault.{GraphFault};
ghost use Rattle.certificate_text.specs.declared.fault.CertFault.{CertFault};
ghost use Rattle.route_server.specs.Words.{command_of, name_of, other_name_of};
ghost use Rattle.route_server.specs.Checking.{SaysFile};
ghost use Rattle.route_server.specs.Certifying.{CertifiesFile};
ghost use Rattle.route_server.specs.Answer.{AnswersFile};
ghost use Rattle.route_server.specs.Giving.{GivesText, GivesOf, IsCheck, IsPrint};
ghost use Rattle.route_server.specs.Grids.{IsMade, IsSurveyed};
ghost use Rattle.route_server.specs.Causes.{HasFault, HasFile, IsAccepted, IsCertify, IsEarly, IsLong, IsOutside, IsReady, IsRefusal, IsUnjudged, IsWhole};
ghost use Rattle.route_server.specs.declared.words.Command.TheVariants as command;
ghost use Rattle.route_server.specs.declared.words.Grid.{Grid as Made};
ghost use Rattle.route_server.specs.declared.words.Ends.{Ends as Between};

use crate::answer::answer;
use crate::certificates::recheck_named;
use crate::certifying::certify_named;
use crate::graphs::{check, print};
use crate::grids::{make, survey};
use crate::status::Status;
use crate::words::{Command, graph_name, other_name, read_command};
use road_io::{Shelf, Sink, Source};
use std::alloc::Global;
use std::thread::Threads;

/// Does all that the program does: takes the words of the command line, reads graph files from the shelf and requests
/// from the input, and writes to the output.
///
/// `check` and `print` take 16 bytes an arc, and 128 KB while they read; `make` takes 16 bytes an arc of its grid.
/// `survey` takes 40 bytes an arc and 128 bytes a vertex: 8 for the graph, and 120 for searches and plans, which are
/// kept from one query to the next with what the largest searches so far needed. `answer` keeps as much for searches
/// and plans, and the newest version of the graph (`route_engine::Prepared`), beside the next one while a change is
/// published. Besides, it keeps 128 KB for lines, the plans of the last eight queries that a page was asked of, and the
/// longest reply. `certify` takes what `answer` takes for one version and one plan, and the certificate, whose blocks have 24
/// bytes a vertex that their searches reach.
pub fn run<R: Threads + Sync, F: Shelf, S: Source, K: Sink>(
    rt: &R,
    alloc: Global,
    words: &[String],
    shelf: &mut F,
    input: &mut S,
    output: &mut K,
) -> Status
    ensures usage { (result ≡ Status.Usage) ↔ (command_of (map (λ w. string_bytes w) words.now) ≡ None) }

    // Over a shelf, an input and an output that tell their bytes, this is what stands written.
    ensures check { command_of (map (λ w. string_bytes w) words.now) ≡ Some command.Check →
        IfSome (F.left shelf.old) (λ told.
        IfTold (K.written output.old) (K.written output.new) (λ out now.
        GivesOf IsCheck (told.files (name_of (map (λ w. string_bytes w) words.now))) out now result)) }
    ensures print { command_of (map (λ w. string_bytes w) words.now) ≡ Some command.Print →
        IfSome (F.left shelf.old) (λ told.
        IfTold (K.written output.old) (K.written output.new) (λ out now.
        GivesOf IsPrint (told.files (name_of (map (λ w. string_bytes w) words.now))) out now result)) }
    ensures make { (grid : Made) → command_of (map (λ w. string_bytes w) words.now) ≡ Some (command.Make grid) →
        IfTold (K.written output.old) (K.written output.new) (λ out now.
        GivesText (IsMade grid) out now result) }
    ensures survey { (grid : Made) (queries : ℕ) →
        command_of (map (λ w. string_bytes w) words.now) ≡ Some (command.Survey grid queries) →
        IfTold (K.written output.old) (K.written output.new) (λ out now.
        GivesText (IsSurveyed grid queries) out now result) }
    ensures answer { command_of (map (λ w. string_bytes w) words.now) ≡ Some command.Answer →
        IfSome (F.left shelf.old) (λ told.
        IfTold (S.left input.old) (S.left input.new) (λ text rest.
        IfTold (K.written output.old) (K.written output.new) (λ out now.
        AnswersFile (told.files (name_of (map (λ w. string_bytes w) words.now))) text rest out now result))) }

    ensures recheck { command_of (map (λ w. string_bytes w) words.now) ≡ Some command.Recheck →
        IfSome (F.left shelf.old) (λ told.
        IfTold (K.written output.old) (K.written output.new) (λ out now.
        SaysFile (told.files (name_of (map (λ w. string_bytes w) words.now)))
        (told.files (other_name_of (map (λ w. string_bytes w) words.now))) out now result)) }
    ensures certify { (ends : Between) → command_of (map (λ w. string_bytes w) words.now) ≡ Some (command.Certify ends) →
        IfSome (F.left shelf.old) (λ told.
        IfTold (K.written output.old) (K.written output.new) (λ out now.
        CertifiesFile (told.files (name_of (map (λ w. string_bytes w) words.now))) ends out now result)) }

    // What the command has no use for stays as it is: no call was made of it.
    ensures unread { command_of (map (λ w. string_bytes w) words.now) ≢ Some command.Answer → input.new ≡ input.old }
    ensures unpicked { (HasFile (command_of (map (λ w. string_bytes w) words.now)) → ⊥) → shelf.new ≡ shelf.old }
    ensures named { HasFile (command_of (map (λ w. string_bytes w) words.now)) →
        command_of (map (λ w. string_bytes w) words.now) ≢ Some command.Recheck →
        F.picked shelf.new ≡ with_name (name_of (map (λ w. string_bytes w) words.now)) (F.picked shelf.old) }
    ensures named_both { command_of (map (λ w. string_bytes w) words.now) ≡ Some command.Recheck →
        (F.picked shelf.new ≡ with_name (name_of (map (λ w. string_bytes w) words.now)) (F.picked shelf.old))
        ⊎ (F.picked shelf.new ≡ with_name (other_name_of (map (λ w. string_bytes w) words.now))
        (with_name (name_of (map (λ w. string_bytes w) words.now)) (F.picked shelf.old))) }
    ensures unwritten { IsRefusal result → output.new ≡ output.old }
    ensures ungiven { command_of (map (λ w. string_bytes w) words.now) ≢ Some command.Answer → IsEarly result →
        output.new ≡ output.old }
    ensures unstarted { F.faults shelf.new ≢ F.faults shelf.old → output.new ≡ output.old }
    ensures unstarted_input { F.faults shelf.new ≢ F.faults shelf.old → input.new ≡ input.old }

    // Why it ends, whatever stands written.
    ensures checked_alone { (fault : CertFault) → result ≡ Status.CheckedNo fault →
        command_of (map (λ w. string_bytes w) words.now) ≡ Some command.Recheck }
    ensures refused_alone { (fault : GraphFault) → result ≡ Status.GraphRefused fault → HasFile (command_of (map (λ w. string_bytes w) words.now)) }
    ensures refused { (fault : GraphFault) → result ≡ Status.GraphRefused fault →
        IfSome (F.left shelf.old) (λ told. HasFault told (name_of (map (λ w. string_bytes w) words.now)) fault) }
    ensures certifies_alone { result ≡ Status.QueryRefused → IsCertify (command_of (map (λ w. string_bytes w) words.now)) }
    ensures outside { (ends : Between) → command_of (map (λ w. string_bytes w) words.now) ≡ Some (command.Certify ends) →
        result ≡ Status.QueryRefused →
        IfSome (F.left shelf.old) (λ told. IsOutside (Some told) (name_of (map (λ w. string_bytes w) words.now)) ends) }
    ensures first_fault { result ≡ Status.ReadFault → IfSome (F.left shelf.old) (λ told.
        IsUnjudged told (name_of (map (λ w. string_bytes w) words.now)) (F.left shelf.new)
        ⊎ (IsAccepted (F.left shelf.old) (name_of (map (λ w. string_bytes w) words.now))
        × (HasRisen (S.faults input.old) (S.faults input.new)
        ⊎ (command_of (map (λ w. string_bytes w) words.now) ≡ Some command.Recheck)))) }
    ensures answers_alone { result ≡ Status.InputLong → command_of (map (λ w. string_bytes w) words.now) ≡ Some command.Answer }
    ensures long { result ≡ Status.InputLong → IfTold (S.left input.old) (S.left input.new) (λ text rest. IsLong text) }
    ensures complete { IsReady (command_of (map (λ w. string_bytes w) words.now)) (F.left shelf.old) (map (λ w. string_bytes w) words.now) →
        (HasRisen (F.faults shelf.old) (F.faults shelf.new) → ⊥) →
        (HasRisen (S.faults input.old) (S.faults input.new) → ⊥) →
        (HasRisen (K.faults output.old) (K.faults output.new) → ⊥) → IsWhole result }
    ensures complete_outside { (ends : Between) → command_of (map (λ w. string_bytes w) words.now) ≡ Some (command.Certify ends) →
        IsOutside (F.left shelf.old) (name_of (map (λ w. string_bytes w) words.now)) ends →
        (HasRisen (F.faults shelf.old) (F.faults shelf.new) → ⊥) →
        (result ≡ Status.QueryRefused) ⊎ (result ≡ Status.NoMemory) }

    // Faults come from the shelf, the input and the output alone, and end the run.
    ensures read_cause { result ≡ Status.ReadFault →
        HasRisen (F.faults shelf.old) (F.faults shelf.new) ⊎ HasRisen (S.faults input.old) (S.faults input.new) }
    ensures write_cause { result ≡ Status.WriteFault → HasRisen (K.faults output.old) (K.faults output.new) }
    ensures shelf_count { F.faults shelf.old ≤ F.faults shelf.new }
    ensures input_count { S.faults input.old ≤ S.faults input.new }
    ensures output_count { K.faults output.old ≤ K.faults output.new }
    ensures shelf_quiet { result ≢ Status.ReadFault → F.faults shelf.new ≡ F.faults shelf.old }
    ensures input_quiet { result ≢ Status.ReadFault → S.faults input.new ≡ S.faults input.old }
    ensures output_quiet { result ≢ Status.WriteFault → K.faults output.new ≡ K.faults output.old }
{
    let Some(command) = read_command(words) else {
        return Status::Usage;
    };
    let name = graph_name(words);
    match command {
        Command::Check => check(alloc, name, shelf, output),
        Command::Print => print(alloc, name, shelf, output),
        Command::Make(grid) => make(alloc, grid, output),
        Command::Survey(grid, queries) => survey(rt, alloc, grid, queries, output),
        Command::Answer => answer(rt, alloc, name, shelf, input, output),
        Command::Recheck => recheck_named(alloc, name, other_name(words), shelf, output),
        Command::Certify(ends) => certify_named(rt, alloc, name, ends, shelf, output),
    }
}
