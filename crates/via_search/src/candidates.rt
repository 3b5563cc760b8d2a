//! The path through a vertex.

ghost use Rattle.std.specs.Prelude.{◌≡◌, ◌↔◌, IfOk, IsTrue};
ghost use Rattle.via_search.specs.Candidates.{FindsCandidate};

use crate::setting::Setting;
use canonical_trees::via_path;
use road_model::{ArcList, ArcNo, NoMemory, Vertex};
use std::alloc::Global;

/// The path through a vertex.
#[derive(Debug, Drop)]
pub(crate) struct Candidate {
    pub(crate) via: Vertex,
    /// The distance from the source to the via.
    pub(crate) near: u64,
    pub(crate) length: u64,
    pub(crate) arcs: ArcList,
}

/// The candidate of a vertex, if its path is within the reach. The lengths are known before the path is.
pub(crate) fn candidate_of(
    alloc: Global,
    setting: &Setting<'_>,
    v: Vertex,
) -> Result<Option<Candidate>, NoMemory>
    ensures { IfOk result
        (FindsCandidate setting.now.graph setting.now.query.from setting.now.query.to setting.now.reach v) }
{
    let pair = setting.pair;
    let Some(near) = pair.from_label(v) else {
        return Ok(None);
    };
    let Some(left) = pair.to_label(v) else {
        return Ok(None);
    };
    let length = near + left;
    if length > setting.reach {
        return Ok(None);
    }
    let Some(arcs) = via_path(alloc, pair, v)? else {
        return Ok(None);
    };
    Ok(Some(Candidate {
        via: v,
        near,
        length,
        arcs,
    }))
}

fn are_same(a: &[ArcNo], b: &[ArcNo]) -> bool
    ensures { IsTrue result ↔ (a.now ≡ b.now) }
{
    a == b
}

pub(crate) fn is_optimum(setting: &Setting<'_>, candidate: &Candidate) -> bool
    requires { candidate.now.arcs ≡ setting.now.optimum.arcs
        → candidate.now.length ≡ setting.now.optimum.length }
    ensures { IsTrue result ↔ (candidate.now.arcs ≡ setting.now.optimum.arcs) }
{
    let optimum = setting.optimum;
    candidate.length == optimum.length
        && are_same(candidate.arcs.as_slice(), optimum.arcs.as_slice())
}
