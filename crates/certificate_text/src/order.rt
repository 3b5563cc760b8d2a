//! A certificate as far as it was read, line by line.

ghost use Rattle.std.specs.Prelude.{◌≡◌};
ghost use Rattle.certificate_text.specs.Words.{Gives, line_said};
ghost use Rattle.certificate_text.specs.Order.{step, after_start, after_version, after_counts, between_blocks, inside_block, after_none, after_optimum};

use crate::certificate::{
    Block, BlockList, BlockRowList, CertRouteList, Certificate, Finding, NumberList, ViaRowList,
};
use crate::line::{Refusal, Said};
use road_model::CursorQuery;
use std::alloc::Global;

/// What comes before the finding.
#[derive(Debug, Drop)]
pub(crate) struct Opening {
    pub(crate) vertices: u64,
    pub(crate) arcs: u64,
    pub(crate) query: CursorQuery,
    pub(crate) blocks: BlockList,
}

impl Opening {
    /// The certificate of this finding.
    fn with_finding(self, finding: Finding) -> Certificate
        ensures { result ≡ record { vertices = self.vertices; arcs = self.arcs; query = self.query; blocks = self.blocks; finding = finding } }
    {
        let Opening {
            vertices,
            arcs,
            query,
            blocks,
        } = self;
        Certificate {
            vertices,
            arcs,
            query,
            blocks,
            finding,
        }
    }
}

/// The optimum, and the alternatives and reasons so far.
#[derive(Debug, Drop)]
pub(crate) struct Alternatives {
    pub(crate) length: u64,
    pub(crate) arcs: NumberList,
    pub(crate) routes: CertRouteList,
    pub(crate) vias: ViaRowList,
}

/// How much of a certificate was read.
#[derive(Debug, Drop)]
pub(crate) enum Progress {
    Start,
    /// The version.
    Named,
    /// The numbers of vertices and arcs, too.
    Counted(u64, u64),
    /// All before the finding, where no block is open.
    Between(Opening),
    /// The same, where one is.
    Inside(Opening, Block),
    /// That no walk was found.
    NoneFound(Opening),
    /// The optimum.
    Found(Opening, Alternatives),
    /// All of it.
    Whole(Certificate),
}

fn after_start(said: Said) -> Result<Progress, Refusal>
    ensures { Gives (λ p. p) result (after_start (line_said said)) }
{
    match said {
        Said::Version => Ok(Progress::Named),
        _ => Err(Refusal::Wrong),
    }
}

fn after_version(said: Said) -> Result<Progress, Refusal>
    ensures { Gives (λ p. p) result (after_version (line_said said)) }
{
    match said {
        Said::Counts(vertices, arcs) => Ok(Progress::Counted(vertices, arcs)),
        _ => Err(Refusal::Wrong),
    }
}

fn after_counts(alloc: Global, vertices: u64, arcs: u64, said: Said) -> Result<Progress, Refusal>
    ensures { Gives (λ p. p) result (after_counts vertices arcs (line_said said)) }
{
    match said {
        Said::Asks(query) => Ok(Progress::Between(Opening {
            vertices,
            arcs,
            query,
            blocks: BlockList::new(alloc),
        })),
        _ => Err(Refusal::Wrong),
    }
}

fn between_blocks(alloc: Global, opening: Opening, said: Said) -> Result<Progress, Refusal>
    ensures { Gives (λ p. p) result (between_blocks opening (line_said said)) }
{
    match said {
        Said::Heads(kind, root, radius) => Ok(Progress::Inside(
            opening,
            Block {
                kind,
                root,
                radius,
                rows: BlockRowList::new(alloc),
            },
        )),
        Said::NoneFound => {
            if opening.blocks.is_empty() {
                return Err(Refusal::Wrong);
            }
            Ok(Progress::NoneFound(opening))
        }
        Said::Optimum(length, arcs) => {
            if opening.blocks.is_empty() {
                return Err(Refusal::Wrong);
            }
            Ok(Progress::Found(
                opening,
                Alternatives {
                    length,
                    arcs,
                    routes: CertRouteList::new(alloc),
                    vias: ViaRowList::new(alloc),
                },
            ))
        }
        _ => Err(Refusal::Wrong),
    }
}

fn inside_block(mut opening: Opening, mut block: Block, said: Said) -> Result<Progress, Refusal>
    ensures { Gives (λ p. p) result (inside_block opening block (line_said said)) }
{
    match said {
        Said::Row(row) => {
            block.rows.push(row)?;
            Ok(Progress::Inside(opening, block))
        }
        Said::End => {
            opening.blocks.push(block)?;
            Ok(Progress::Between(opening))
        }
        _ => Err(Refusal::Wrong),
    }
}

fn after_none(opening: Opening, said: Said) -> Result<Progress, Refusal>
    ensures { Gives (λ p. p) result (after_none opening (line_said said)) }
{
    match said {
        Said::Done => Ok(Progress::Whole(opening.with_finding(Finding::Nothing))),
        _ => Err(Refusal::Wrong),
    }
}

fn after_optimum(opening: Opening, mut found: Alternatives, said: Said) -> Result<Progress, Refusal>
    ensures { Gives (λ p. p) result (after_optimum opening found (line_said said)) }
{
    match said {
        Said::Route(route) => {
            if !found.vias.is_empty() {
                return Err(Refusal::Wrong);
            }
            found.routes.push(route)?;
            Ok(Progress::Found(opening, found))
        }
        Said::Via(via) => {
            found.vias.push(via)?;
            Ok(Progress::Found(opening, found))
        }
        Said::Done => {
            let Alternatives {
                length,
                arcs,
                routes,
                vias,
            } = found;
            Ok(Progress::Whole(opening.with_finding(Finding::Found {
                length,
                arcs,
                routes,
                vias,
            })))
        }
        _ => Err(Refusal::Wrong),
    }
}

/// What a line makes of a certificate of which so much was read.
pub(crate) fn step(alloc: Global, progress: Progress, said: Said) -> Result<Progress, Refusal>
    ensures { Gives (λ p. p) result (step progress (line_said said)) }
{
    match progress {
        Progress::Start => after_start(said),
        Progress::Named => after_version(said),
        Progress::Counted(vertices, arcs) => after_counts(alloc, vertices, arcs, said),
        Progress::Between(opening) => between_blocks(alloc, opening, said),
        Progress::Inside(opening, block) => inside_block(opening, block, said),
        Progress::NoneFound(opening) => after_none(opening, said),
        Progress::Found(opening, found) => after_optimum(opening, found, said),
        Progress::Whole(_) => Err(Refusal::Wrong),
    }
}
