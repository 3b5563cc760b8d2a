ghost use Rattle.std.specs.Prelude.{All, ◌≡◌, ◌≢◌, ◌<◌, ◌≤◌, ◌+◌, ◌^◌, ◌⊎◌, [], ◌∷◌, ◌++◌, length, slice_index, slice_set, IfOk, OnOk, OnErr, IsPermutation, ◌==◌, if◌then◌else◌};
ghost use Rattle.road_model.specs.Graph.{IsGraph, IsVertex, LengthsBelow};
ghost use Rattle.label_setting.specs.Search.{far, IsFreshMemory, IsTracked, IsTouchedList, Stays, Betters, IsSearch, IsSettled, IsAimed, work_left, Begins};

use crate::queue::{Entry, Queue};
use road_model::{Network, NoMemory, Vertex};
use std::alloc::Global;

/// The number of a vertex without a label.
pub const FAR: u64 = 18446744073709551615;

/// Where a search begins, the vertex that it ends at (0 for none), and how far it goes at most.
#[derive(Clone, Copy)]
pub struct Goal {
    pub root: u32,
    pub target: u32,
    pub radius: u64,
}

/// The memory of a search: labels by vertex number, the vertices that have one, those whose steps are still to
/// be taken, and how many were settled in all the searches so far.
///
/// It keeps 8 bytes a vertex, and what the largest search so far needed. Every call here leaves it so that it
/// can be reset, also by an `Err`.
#[derive(Drop)]
pub struct SearchMemory {
    pub labels: Vec<u64>,
    pub touched: Vec<Vertex>,
    pub queue: Queue,
    pub settled: u64,
}

// The limit of a search that has labelled its root.
fn first_limit(goal: Goal) -> u64
    ensures { ((goal.root ≡ goal.target) × (result ≡ 0)) ⊎ ((goal.root ≢ goal.target) × (result ≡ goal.radius)) }
{
    if goal.root == goal.target {
        0
    } else {
        goal.radius
    }
}

// The limit once a vertex got a label: that of the target is the greatest that matters.
#[inline(always)]
fn limit_after(target: u32, limit: u64, head: u32, distance: u64) -> u64
    ensures { ((head ≡ target) × (result ≡ distance)) ⊎ ((head ≢ target) × (result ≡ limit)) }
{
    if head == target { distance } else { limit }
}

// Takes the labels of these vertices back.
fn take_back(labels: &mut [u64], touched: &[Vertex])
    requires { IsTracked labels.old touched.now }
    ensures { All (λ x. x ≡ far) labels.new }
{
    for v in touched {
        labels[v.number() as usize] = FAR;
    }
}

// Lists a vertex that has no label yet.
#[inline(always)]
fn touch(touched: &mut Vec<Vertex>, label: u64, head: Vertex) -> Result<(), NoMemory>
    ensures ok { OnOk result (touched.new.items ≡ (if label == far then touched.old.items ++ head ∷ [] else touched.old.items)) }
    ensures err { OnErr result (touched.new.items ≡ touched.old.items) }
{
    if label == FAR {
        touched.push(head)?;
    }
    Ok(())
}

impl SearchMemory {
    /// A memory for no vertex yet. Takes no memory itself.
    pub fn new(alloc: Global) -> SearchMemory
        ensures { IsTracked result.labels.items result.touched.items }
    {
        SearchMemory {
            labels: Vec::new(alloc),
            touched: Vec::new(alloc),
            queue: Queue::new(alloc),
            settled: 0,
        }
    }

    /// Takes every label back, and lays the labels out anew where they are those of another number of vertices.
    ///
    /// Takes the time of what has a label; only where they are laid out anew that of all vertices.
    pub fn prepare(&mut self, alloc: Global, vertices: u32) -> Result<(), NoMemory>
        requires { IsTracked self.old.labels.items self.old.touched.items }
        ensures size { OnOk result (length self.new.labels.items ≡ vertices + 1) }
        ensures fresh { OnOk result (IsFreshMemory self.new) }
        ensures tracked { IsTracked self.new.labels.items self.new.touched.items }
    {
        self.reset();
        if self.labels.len() == vertices as usize + 1 {
            return Ok(());
        }
        self.labels = Vec::new(alloc);
        self.labels = vec![in alloc; FAR; vertices as usize + 1]?;
        Ok(())
    }

    /// Takes every label back, in the time of what has one.
    pub fn reset(&mut self)
        requires { IsTracked self.old.labels.items self.old.touched.items }
        ensures size { length self.new.labels.items ≡ length self.old.labels.items }
        ensures fresh { IsFreshMemory self.new }
    {
        take_back(&mut self.labels, &self.touched);
        self.touched.clear();
        self.queue.clear();
    }

    // Gives the root its label.
    fn begin(&mut self, goal: Goal) -> Result<(), NoMemory>
        requires inside { goal.root < length self.old.labels.items }
        requires fresh { IsFreshMemory self.old }
        requires low { goal.radius < 2 ^ 60 }
        ensures size { length self.new.labels.items ≡ length self.old.labels.items }
        ensures tracked { IsTracked self.new.labels.items self.new.touched.items }
        ensures ok { OnOk result (Begins goal self.new) }
    {
        self.touched.push(Vertex(goal.root))?;
        self.queue.push(Entry {
            distance: 0,
            vertex: goal.root,
        })?;
        self.labels[goal.root as usize] = 0;
        Ok(())
    }

    // Gives a vertex a better label, and queues it.
    #[inline]
    fn give(&mut self, goal: Goal, head: Vertex, distance: u64) -> Result<(), NoMemory>
        requires inside { head < length self.old.labels.items }
        requires tracked { IsTracked self.old.labels.items self.old.touched.items }
        requires listed { IsTouchedList goal.radius self.old.labels.items self.old.touched.items }
        requires within { distance ≤ goal.radius }
        requires better { distance < slice_index self.old.labels.items head }
        ensures size { length self.new.labels.items ≡ length self.old.labels.items }
        ensures tracked { IsTracked self.new.labels.items self.new.touched.items }
        ensures work { work_left self.new ≤ work_left self.old }
        ensures listed { OnOk result (IsTouchedList goal.radius self.new.labels.items self.new.touched.items) }
        ensures labels { OnOk result (self.new.labels.items ≡ slice_set self.old.labels.items head distance) }
        ensures queue { OnOk result
            (IsPermutation (record { distance = distance; vertex = head } ∷ self.old.queue) self.new.queue) }
    {
        let at = head.number() as usize;
        touch(&mut self.touched, self.labels[at], head)?;
        self.queue.push(Entry {
            distance,
            vertex: head.number(),
        })?;
        self.labels[at] = distance;
        Ok(())
    }

    // Takes the length of a walk to `head` as its label, where that betters it, and answers the limit after.
    #[inline(always)]
    fn reach(
        &mut self,
        goal: Goal,
        limit: u64,
        head: Vertex,
        distance: u64,
    ) -> Result<u64, NoMemory>
        requires inside { head < length self.old.labels.items }
        requires tracked { IsTracked self.old.labels.items self.old.touched.items }
        requires listed { IsTouchedList goal.radius self.old.labels.items self.old.touched.items }
        requires within { limit ≤ goal.radius }
        ensures size { length self.new.labels.items ≡ length self.old.labels.items }
        ensures tracked { IsTracked self.new.labels.items self.new.touched.items }
        ensures work { work_left self.new ≤ work_left self.old }
        ensures listed { OnOk result (IsTouchedList goal.radius self.new.labels.items self.new.touched.items) }
        ensures reached { IfOk result (λ after. Stays limit distance head after self.old self.new
            ⊎ Betters goal.target limit distance head after self.old self.new) }
    {
        if distance > limit || distance >= self.labels[head.number() as usize] {
            return Ok(limit);
        }
        self.give(goal, head, distance)?;
        Ok(limit_after(goal.target, limit, head.number(), distance))
    }

    // Takes every step out of a vertex.
    fn relax<N: Network>(
        &mut self,
        net: &N,
        goal: Goal,
        from: Entry,
        limit: u64,
    ) -> Result<u64, NoMemory>
        requires sound { IsGraph (N.graph net.now) }
        requires short { LengthsBelow (N.graph net.now) (2 ^ 58) }
        requires entry { IsVertex (N.graph net.now).vertices from.vertex }
        requires label { slice_index self.old.labels.items from.vertex ≡ from.distance }
        requires near { from.distance < 2 ^ 60 }
        requires tracked { IsTracked self.old.labels.items self.old.touched.items }
        requires listed { IsTouchedList goal.radius self.old.labels.items self.old.touched.items }
        requires search { IsSearch (N.graph net.now) goal limit self.old.labels.items self.old.queue from.vertex 0 }
        ensures size { length self.new.labels.items ≡ length self.old.labels.items }
        ensures tracked { IsTracked self.new.labels.items self.new.touched.items }
        ensures work { work_left self.new ≤ work_left self.old }
        ensures listed { OnOk result (IsTouchedList goal.radius self.new.labels.items self.new.touched.items) }
        ensures search { IfOk result (λ after.
            IsSearch (N.graph net.now) goal after self.new.labels.items self.new.queue 0 0) }
    {
        let mut within = limit;
        let mut i = 0u32;
        'steps: while let Some(step) = net.out(Vertex(from.vertex), i) {
            // The place of a step is below its arc's number, so the next one fits.
            let _number = step.arc.number();
            within = self.reach(goal, within, step.head, from.distance + step.length)?;
            i += 1;
        }
        Ok(within)
    }

    /// Labels every vertex within the radius, and where the target is among them within its distance. It
    /// answers how far the labels reach.
    pub fn run<N: Network>(&mut self, net: &N, goal: Goal) -> Result<u64, NoMemory>
        requires short { LengthsBelow (N.graph net.now) (2 ^ 58) }
        requires root { IsVertex (N.graph net.now).vertices goal.root }
        requires target { goal.target ≤ (N.graph net.now).vertices }
        requires low { goal.radius < 2 ^ 60 }
        requires size { length self.old.labels.items ≡ (N.graph net.now).vertices + 1 }
        requires fresh { IsFreshMemory self.old }
        ensures size { length self.new.labels.items ≡ length self.old.labels.items }
        ensures tracked { IsTracked self.new.labels.items self.new.touched.items }
        ensures listed { OnOk result (IsTouchedList goal.radius self.new.labels.items self.new.touched.items) }
        ensures within { IfOk result (λ limit. limit ≤ goal.radius) }
        ensures unused { OnOk result (slice_index self.new.labels.items 0 ≡ far) }
        ensures aimed { IfOk result (λ limit. IsAimed goal limit self.new.labels.items) }
        ensures settled { IfOk result (λ limit.
            IsSettled (N.graph net.now) goal.root limit self.new.labels.items) }
    {
        let _vertices = net.vertices();
        self.begin(goal)?;
        let mut limit = first_limit(goal);
        'search: while let Some(entry) = self.queue.pop() {
            if entry.distance >= limit {
                return Ok(limit);
            }
            if entry.distance == self.labels[entry.vertex as usize] {
                self.settled = self.settled.saturating_add(1);
                limit = self.relax(net, goal, entry, limit)?;
            }
        }
        Ok(limit)
    }
}
