//! The items of a plan as lines.

ghost use Rattle.std.specs.Prelude.{◌≡◌, ◌+◌, ◌≤◌, length, Some};
ghost use Rattle.road_model.specs.declared.answer.Plan.TheVariants.{Found};
ghost use Rattle.line_front.specs.Items.{optimum_part, routes_text};
ghost use Rattle.road_text.specs.Pieces.{put_of, Appends};
ghost use Rattle.line_front.specs.Replies.{arcs_text, head_text, items_text, line_text, optimum_text, route_text, tail_text};

use road_io::Sink;
use road_model::{ArcNo, Optimum, PageSpan, Route};
use road_text::{SinkFailed, put, put_numbered};

/// Writes the numbers of a walk, each after a space.
fn put_arcs<K: Sink>(sink: &mut K, arcs: &[ArcNo]) -> Result<(), SinkFailed>
    ensures { Appends K.written K.faults (arcs_text arcs.now) sink.old sink.new (put_of result) }
{
    for arc in arcs {
        put_numbered(sink, b" ", u64::from(arc.number()))?;
    }
    Ok(())
}

/// Writes the line of an optimum.
pub fn put_optimum<K: Sink>(sink: &mut K, optimum: &Optimum) -> Result<(), SinkFailed>
    ensures { Appends K.written K.faults (line_text (optimum_text optimum.now))
        sink.old sink.new (put_of result) }
{
    put_numbered(sink, b"optimum length ", optimum.length)?;
    put(sink, b" arcs")?;
    put_arcs(sink, optimum.arcs.as_slice())?;
    put(sink, b"\n")
}

/// Writes the first numbers of an alternative.
fn put_head<K: Sink>(sink: &mut K, route: &Route) -> Result<(), SinkFailed>
    ensures { Appends K.written K.faults (head_text route.now) sink.old sink.new (put_of result) }
{
    put_numbered(sink, b"route via ", u64::from(route.via.number()))?;
    put_numbered(sink, b" length ", route.length)?;
    put_numbered(sink, b" shared ", route.shared)
}

/// Writes its other numbers.
fn put_tail<K: Sink>(sink: &mut K, route: &Route) -> Result<(), SinkFailed>
    ensures { Appends K.written K.faults (tail_text route.now) sink.old sink.new (put_of result) }
{
    put_numbered(sink, b" plateau ", route.plateau)?;
    put_numbered(sink, b" rank ", route.rank)?;
    put(sink, b" arcs")
}

/// Writes the line of an alternative.
fn put_route<K: Sink>(sink: &mut K, route: &Route) -> Result<(), SinkFailed>
    ensures { Appends K.written K.faults (line_text (route_text route.now))
        sink.old sink.new (put_of result) }
{
    put_head(sink, route)?;
    put_tail(sink, route)?;
    put_arcs(sink, route.arcs.as_slice())?;
    put(sink, b"\n")
}

/// Writes the lines of alternatives.
fn put_routes<K: Sink>(sink: &mut K, routes: &[Route]) -> Result<(), SinkFailed>
    ensures { Appends K.written K.faults (routes_text routes.now) sink.old sink.new (put_of result) }
{
    for route in routes {
        put_route(sink, route)?;
    }
    Ok(())
}

/// Writes the line of the optimum where it is one of the items of the span, as the first.
fn put_first<K: Sink>(sink: &mut K, span: &PageSpan, optimum: &Optimum) -> Result<(), SinkFailed>
    ensures { Appends K.written K.faults (optimum_part span.now optimum.now)
        sink.old sink.new (put_of result) }
{
    if span.first == 0 && span.count > 0 {
        put_optimum(sink, optimum)
    } else {
        Ok(())
    }
}

/// Writes the lines of the items of a span: item 0 is the optimum, and item `k` the `k`-th alternative.
pub fn put_items<K: Sink>(
    sink: &mut K,
    span: &PageSpan,
    optimum: &Optimum,
    others: &[Route],
) -> Result<(), SinkFailed>
    requires { span.now.first + span.now.count ≤ 1 + length others.now }
    ensures { Appends K.written K.faults (items_text span.now (Some (Found optimum.now others.now)))
        sink.old sink.new (put_of result) }
{
    put_first(sink, span, optimum)?;
    let from = span.first.saturating_sub(1) as usize;
    let to = (span.first + span.count).saturating_sub(1) as usize;
    put_routes(sink, &others[from..to])
}
