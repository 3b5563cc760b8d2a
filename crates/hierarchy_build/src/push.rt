//! Lengths of links lowered to those of two links that meet at their lower end.

ghost use Rattle.std.specs.Prelude.{◌≡◌, ◌≢◌, ◌<◌, ◌≤◌, ◌+◌, ℕ, min, length, slice_index, slice_set};
ghost use Rattle.hierarchy_build.specs.Runs.{InSpan, IsAcross, HasPlace};
ghost use Rattle.hierarchy_build.specs.Lengths.{CanPush, Keeps, IsTight, AreTight, RunIsTight};

// The first place of `w` from `from` on.
#[inline(always)]
pub(crate) fn place_of(head: &[u32], from: usize, w: u32) -> usize
    requires { HasPlace head.now from w }
    ensures inside { result < length head.now }
    ensures late { from ≤ result }
    ensures found { slice_index head.now result ≡ w }
    ensures earliest { (k : ℕ) → from ≤ k → slice_index head.now k ≡ w → result ≤ k }
{
    let mut place = from;
    while head[place] != w {
        place += 1;
    }
    place
}

// Lowers the length at a place to this one, if it is less.
#[inline(always)]
pub(crate) fn lower(lengths: &mut [u64], place: usize, to: u64)
    requires { place < length lengths.old }
    ensures { lengths.new ≡ slice_set lengths.old place (min (slice_index lengths.old place) to) }
{
    lengths[place] = lengths[place].min(to);
}

// Lowers the links that join the rank at the place `i` of the run of `v` with each after it there.
fn push_row(
    ranks: usize,
    first: &[u32],
    head: &[u32],
    up: &mut [u64],
    down: &mut [u64],
    v: usize,
    i: usize,
)
    requires can { CanPush ranks first.now head.now up.old down.old }
    requires rank { v < ranks }
    requires place { InSpan first.now v i }
    ensures keeps { Keeps ranks first.now head.now (slice_index first.now (v + 1)) up.old down.old up.new down.new }
    ensures tight { RunIsTight first.now head.now up.new down.new v i }
{
    let mut at = first[head[i] as usize] as usize;
    for j in i + 1..first[v + 1] as usize {
        let k = place_of(head, at, head[j]);
        let rise = down[i] + up[j];
        let fall = down[j] + up[i];
        lower(up, k, rise);
        lower(down, k, fall);
        at = k + 1;
    }
}

// The same for each place in the run of `v`.
fn push_run(ranks: usize, first: &[u32], head: &[u32], up: &mut [u64], down: &mut [u64], v: usize)
    requires can { CanPush ranks first.now head.now up.old down.old }
    requires rank { v < ranks }
    ensures keeps { Keeps ranks first.now head.now (slice_index first.now (v + 1)) up.old down.old up.new down.new }
    ensures tight { (i : ℕ) → InSpan first.now v i → RunIsTight first.now head.now up.new down.new v i }
{
    for i in first[v] as usize..first[v + 1] as usize {
        push_row(ranks, first, head, up, down, v, i);
    }
}

/// Lowers each link to what two links at a lower rank make, the lowest rank first.
pub(crate) fn push_triangles(
    ranks: usize,
    first: &[u32],
    head: &[u32],
    up: &mut [u64],
    down: &mut [u64],
)
    requires can { CanPush ranks first.now head.now up.old down.old }
    ensures keeps { Keeps ranks first.now head.now 0 up.old down.old up.new down.new }
    ensures tight { AreTight ranks first.now head.now up.new down.new ranks }
{
    for v in 0..ranks {
        push_run(ranks, first, head, up, down, v);
    }
}
