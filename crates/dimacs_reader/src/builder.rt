//! The graph, gathered line by line.

ghost use Rattle.std.specs.Prelude.{◌≡◌, ℕ, Ok, Err, ◌+◌, ◌<◌, ◌≤◌, ◌^◌, ◌∷◌, [], ◌++◌, None, List, length};
ghost use Rattle.road_text.specs.Reader.{held, line_of, budget, limit_of, IsLongLine, Steps, GoesOn, IsShown};
ghost use Rattle.road_text.specs.declared.line_reader.LineReader.{LineReader};
ghost use Rattle.dimacs_reader.specs.Gathering.{Gathers, GathersOn};
ghost use Rattle.dimacs_reader.specs.declared.line.TheConstants.{MAX_LINE};
ghost use Rattle.dimacs_reader.specs.Gr.{is_comment};
ghost use Rattle.dimacs_reader.specs.Building.{IsSound, IsAfter, AddsLine, Ends};

use crate::fault::{GraphError, GraphFault, GraphKind};
use crate::judge::{begins_comment, judge};
use crate::line::{Judged, Problem};
use road_model::{ArcRow, ArcRows, GraphFile};
use road_text::{Advance, LineReader};
use std::alloc::Global;

/// Whether more lines may come.
#[derive(Clone, Copy, Debug, PartialEq, Eq)]
pub(crate) enum Gathered {
    More,
    All,
}

/// What the lines so far say, and how many they are.
#[derive(Drop)]
pub(crate) struct Builder {
    problem: Option<Problem>,
    arcs: Vec<ArcRow>,
    lines: u64,
}

impl Builder {
    pub(crate) fn new(alloc: Global) -> Builder
        ensures sound { IsSound result }
        ensures lines { result.lines ≡ 0 }
        ensures after { IsAfter [] result }
    {
        Builder {
            problem: None,
            arcs: Vec::new(alloc),
            lines: 0,
        }
    }

    /// The fault of this kind at the line after those so far.
    pub(crate) fn fault(&self, kind: GraphKind) -> GraphFault
        requires { self.now.lines < 2 ^ 63 }
        ensures { result ≡ record { line = self.now.lines + 1; kind = kind } }
    {
        GraphFault {
            line: self.lines + 1,
            kind,
        }
    }

    /// Takes one line.
    pub(crate) fn take(&mut self, line: &[u8]) -> Result<(), GraphError>
        requires short { length line.now ≤ MAX_LINE }
        requires sound { IsSound self.old }
        requires few { self.old.lines < 2 ^ 63 }
        ensures sound { IsSound self.new }
        ensures lines { self.new.lines ≤ self.old.lines + 1 }
        ensures adds { (before : List (List ℕ)) → IsAfter before self.old
            → AddsLine before line.now self.new result }
        ensures own { result ≡ Err GraphError.ReadFault → ⊥ }
    {
        match judge(line, self.problem, self.arcs.len()) {
            Judged::Wrong(kind) => return Err(GraphError::Refused(self.fault(kind))),
            Judged::Nothing => {}
            Judged::NewProblem(problem) => {
                self.arcs.reserve_exact(problem.arcs as usize)?;
                self.problem = Some(problem);
            }
            Judged::NewArc(row) => self.arcs.push(row)?,
        }
        self.lines += 1;
        Ok(())
    }

    /// Takes one line that was too long to be shown, by its first byte that isn't blank.
    pub(crate) fn pass(&mut self, first: Option<u8>) -> Result<(), GraphError>
        requires sound { IsSound self.old }
        requires few { self.old.lines < 2 ^ 63 }
        ensures sound { IsSound self.new }
        ensures lines { self.new.lines ≤ self.old.lines + 1 }
        ensures adds { (before : List (List ℕ)) (line : List ℕ) → IsAfter before self.old
            → IsLongLine MAX_LINE line first → AddsLine before line self.new result }
        ensures own { result ≡ Err GraphError.ReadFault → ⊥ }
    {
        if !begins_comment(first) {
            return Err(GraphError::Refused(self.fault(GraphKind::LineLong)));
        }
        self.lines += 1;
        Ok(())
    }

    /// Takes what one step of the reader came to.
    pub(crate) fn gather(
        &mut self,
        reader: &LineReader,
        advance: Advance,
    ) -> Result<Gathered, GraphError>
        requires short { IsShown advance → length (line_of reader.now) ≤ MAX_LINE }
        requires sound { IsSound self.old }
        requires few { self.old.lines < 2 ^ 63 }
        ensures sound { IsSound self.new }
        ensures lines { self.new.lines ≤ self.old.lines + 1 }
        ensures goes_on { result ≡ Ok Gathered.More → GoesOn advance }
        ensures failed { result ≡ Err GraphError.ReadFault → advance ≡ Advance.Failed }
        ensures told { advance ≡ Advance.Failed → result ≡ Err GraphError.ReadFault }
        ensures gathered { (old : LineReader) (text rest after : List ℕ) → limit_of old ≡ MAX_LINE
            → Gathers (budget old) text (held old ++ rest) self.old
            → Steps old reader.now (held old ++ rest) after advance
            → GathersOn reader.now text after self.new result }
    {
        match advance {
            Advance::Whole => match self.take(reader.line()) {
                Ok(()) => Ok(Gathered::More),
                Err(error) => Err(error),
            },
            Advance::Last => match self.take(reader.line()) {
                Ok(()) => Ok(Gathered::All),
                Err(error) => Err(error),
            },
            Advance::Long { whole: true, first } => match self.pass(first) {
                Ok(()) => Ok(Gathered::More),
                Err(error) => Err(error),
            },
            Advance::Long {
                whole: false,
                first,
            } => match self.pass(first) {
                Ok(()) => Ok(Gathered::All),
                Err(error) => Err(error),
            },
            Advance::End => Ok(Gathered::All),
            Advance::Spent => Err(GraphError::Refused(self.fault(GraphKind::FileLong))),
            Advance::Failed => Err(GraphError::ReadFault),
        }
    }

    /// The graph at the end of the file.
    pub(crate) fn finish(self) -> Result<GraphFile, GraphError>
        requires sound { IsSound self }
        requires few { self.lines < 2 ^ 63 }
        ensures ends { (lines : List (List ℕ)) → IsAfter lines self → Ends lines result }
        ensures own { result ≡ Err GraphError.ReadFault → ⊥ }
    {
        let problem = match self.problem {
            Some(problem) => problem,
            None => return Err(GraphError::Refused(self.fault(GraphKind::NoProblem))),
        };
        if self.arcs.len() < problem.arcs as usize {
            return Err(GraphError::Refused(self.fault(GraphKind::TooFewArcs)));
        }
        let Builder { arcs, .. } = self;
        Ok(GraphFile::new(problem.vertices, ArcRows::from_vec(arcs)))
    }
}
