//! Climbs from a rank to the top of its tree, over arrays of labels.

ghost use Rattle.std.specs.Prelude.{◌≡◌, ◌<◌, ◌≤◌, ◌⊎◌, ℕ, min, length, slice_index, slice_set};
ghost use Rattle.hierarchy_build.specs.Runs.{IsShape};
ghost use Rattle.hierarchy_build.specs.Lengths.{no_link};
ghost use Rattle.hierarchy_query.specs.Asks.{up_links, down_links};
ghost use Rattle.hierarchy_query.specs.Climbs.{IsBlank, CanRelax, CanClimb, IsRelaxed, IsClimbed, Above, IsLeastHill, CanMeet, IsMeeting};

use hierarchy_build::{Hierarchy, Links, NO_LINK};

// Lowers a label, if the new one is less.
#[inline(always)]
pub(crate) fn lower(labels: &mut [u64], at: usize, to: u64)
    requires { at < length labels.old }
    ensures { labels.new ≡ slice_set labels.old at (min (slice_index labels.old at) to) }
{
    labels[at] = labels[at].min(to);
}

// Relaxes each link from a rank up.
fn relax(links: &Links, x: usize, labels: &mut [u64])
    requires can { CanRelax (length labels.old) links.now x }
    requires rank { x < length labels.old }
    requires low { slice_index labels.old x ≤ no_link }
    ensures { IsRelaxed links.now x labels.old labels.new }
{
    let first = links.first.as_slice();
    let head = links.head.as_slice();
    let lengths = links.length.as_slice();
    let label = labels[x];
    for k in first[x] as usize..first[x + 1] as usize {
        lower(labels, head[k] as usize, label + lengths[k]);
    }
}

/// The labels of the ranks above `s` by these links, and how many ranks were passed. The way up is that of the
/// runs of the shape, `first` and `head`.
pub(crate) fn climb(first: &[u32], head: &[u32], links: &Links, s: usize, labels: &mut [u64]) -> u64
    requires can { CanClimb (length labels.old) first.now head.now links.now }
    requires rank { s < length labels.old }
    requires blank { IsBlank (length labels.old) labels.old }
    ensures { IsClimbed (length labels.old) links.now s labels.new }
{
    labels[s] = 0;
    let mut passed = 1u64;
    let mut x = s;
    'up: while first[x] < first[x + 1] {
        relax(links, x, labels);
        x = head[first[x] as usize] as usize;
        passed += 1;
    }
    passed
}

// The least length of a hill, from the labels of both climbs.
fn meet(first: &[u32], head: &[u32], forward: &[u64], backward: &[u64], s: usize) -> u64
    requires { CanMeet first.now head.now forward.now backward.now s }
    ensures { IsMeeting forward.now backward.now result }
{
    let mut best = (forward[s] + backward[s]).min(NO_LINK);
    let mut x = s;
    'up: while first[x] < first[x + 1] {
        x = head[first[x] as usize] as usize;
        best = best.min(forward[x] + backward[x]);
    }
    best
}

/// Takes away the labels of the ranks above `s`.
pub(crate) fn clear(first: &[u32], head: &[u32], s: usize, labels: &mut [u64])
    requires shape { IsShape (length labels.old) first.now head.now }
    requires rank { s < length labels.old }
    requires above { (y : ℕ) → y < length labels.old → (slice_index labels.old y ≡ no_link) ⊎ Above first.now head.now s y }
    ensures { IsBlank (length labels.old) labels.new }
{
    labels[s] = NO_LINK;
    let mut x = s;
    'up: while first[x] < first[x + 1] {
        x = head[first[x] as usize] as usize;
        labels[x] = NO_LINK;
    }
}

/// The least length of a hill between two ranks. The labels are blank before and afterwards; the second result is
/// how many ranks were passed.
pub(crate) fn least_hill(
    hierarchy: &Hierarchy,
    s: usize,
    t: usize,
    forward: &mut [u64],
    backward: &mut [u64],
) -> (u64, u64)
    requires size { length hierarchy.now.shape.order ≡ length forward.old }
    requires from { s < length forward.old }
    requires to { t < length forward.old }
    requires forward { IsBlank (length forward.old) forward.old }
    requires backward { IsBlank (length forward.old) backward.old }
    ensures least { IsLeastHill (up_links (length forward.old) hierarchy.now) (down_links (length forward.old) hierarchy.now) s t result.0 }
    ensures forward_blank { IsBlank (length forward.old) forward.new }
    ensures backward_blank { IsBlank (length forward.old) backward.new }
{
    let shape = hierarchy.shape();
    let first = shape.first.as_slice();
    let head = shape.head.as_slice();
    let rising = climb(first, head, hierarchy.up_links(), s, forward);
    let falling = climb(first, head, hierarchy.down_links(), t, backward);
    let best = meet(first, head, forward, backward, s);
    clear(first, head, s, forward);
    clear(first, head, t, backward);
    (best, rising.saturating_add(falling))
}
