//! A graph into a sink.

ghost use Rattle.std.specs.Prelude.{◌≡◌, ◌≢◌, ◌+◌, ◌<◌, ◌≤◌, ◌^◌, ◌++◌, Ok};
ghost use Rattle.road_io.specs.Buffers.{pending};
ghost use Rattle.road_io.specs.Sink.{Writes};
ghost use Rattle.road_io.specs.Count.{HasRisen};
ghost use Rattle.road_io.specs.declared.buffers.TheConstants.{MOST_PENDING};
ghost use Rattle.dimacs_reader.specs.declared.write.TheConstants.{LINE_ROOM};
ghost use Rattle.dimacs_reader.specs.Text.{problem_text, row_text, graph_text};
ghost use Rattle.dimacs_reader.specs.Gr.{gr_text};

use road_io::{Pending, Put, Sink};
use road_model::{ArcRow, GraphFile};
use road_text::push_number;

/// The most bytes of one line.
const LINE_ROOM: usize = 66;

fn push_problem(text: &mut Pending, vertices: u32, arcs: usize)
    requires { text.old.used + LINE_ROOM ≤ MOST_PENDING }
    ensures { pending text.new ≡ pending text.old ++ problem_text vertices arcs }
{
    text.push(b"p sp ");
    push_number(text, vertices as u64);
    text.push(b" ");
    push_number(text, arcs as u64);
    text.push(b"\n");
}

fn push_row(text: &mut Pending, row: &ArcRow)
    requires { text.old.used + LINE_ROOM ≤ MOST_PENDING }
    ensures { pending text.new ≡ pending text.old ++ row_text row.now }
{
    text.push(b"a ");
    push_number(text, row.tail.number() as u64);
    text.push(b" ");
    push_number(text, row.head.number() as u64);
    text.push(b" ");
    push_number(text, row.length);
    text.push(b"\n");
}

/// Writes the canonical text of a graph, which [`read_graph`](crate::read_graph) reads as that graph.
///
/// It takes no memory. After `Failed` a prefix of the text is written.
pub fn write_graph<K: Sink>(sink: &mut K, graph: &GraphFile) -> Put
    ensures writes { Writes (graph_text graph.now) (K.written sink.old) (K.written sink.new) result }
    ensures read_again { gr_text (graph_text graph.now) ≡ Ok graph.now }
    ensures count { K.faults sink.old ≤ K.faults sink.new }
    ensures cause { result ≡ Put.Failed → HasRisen (K.faults sink.old) (K.faults sink.new) }
    ensures quiet { result ≢ Put.Failed → K.faults sink.new ≡ K.faults sink.old }
{
    let mut text = Pending::new();
    push_problem(&mut text, graph.vertices(), graph.arcs().len());
    for row in graph.arcs() {
        match text.make_room(sink, LINE_ROOM) {
            Put::Done => push_row(&mut text, row),
            Put::Failed => return Put::Failed,
        }
    }
    text.send(sink)
}
