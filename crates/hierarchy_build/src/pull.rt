//! Lengths of links lowered to those of walks over a higher rank.

ghost use Rattle.std.specs.Prelude.{◌<◌, ℕ};
ghost use Rattle.hierarchy_build.specs.Runs.{InSpan};
ghost use Rattle.hierarchy_build.specs.Lengths.{CanPush, Keeps, Pulls, AreBeaten, RunIsBeaten};

use crate::push::{lower, place_of};

// Lowers the links from `v` at the place `i` of its run, and at each place after it, to the way over the other.
fn pull_row(
    ranks: usize,
    first: &[u32],
    head: &[u32],
    up: &mut [u64],
    down: &mut [u64],
    v: usize,
    i: usize,
)
    requires can { CanPush ranks first.now head.now up.old down.old }
    requires rank { v < ranks }
    requires place { InSpan first.now v i }
    ensures pulls { Pulls ranks first.now head.now v up.old down.old up.new down.new }
    ensures beaten { RunIsBeaten first.now head.now v i up.old down.old up.new down.new }
{
    let mut at = first[head[i] as usize] as usize;
    for j in i + 1..first[v + 1] as usize {
        let across = place_of(head, at, head[j]);
        let far_rise = up[i] + up[across];
        let far_fall = down[across] + down[i];
        let near_rise = up[j] + down[across];
        let near_fall = up[across] + down[j];
        lower(up, j, far_rise);
        lower(down, j, far_fall);
        lower(up, i, near_rise);
        lower(down, i, near_fall);
        at = across + 1;
    }
}

// The same for each place in the run of `v`.
fn pull_run(ranks: usize, first: &[u32], head: &[u32], up: &mut [u64], down: &mut [u64], v: usize)
    requires can { CanPush ranks first.now head.now up.old down.old }
    requires rank { v < ranks }
    ensures pulls { Pulls ranks first.now head.now v up.old down.old up.new down.new }
    ensures beaten { (i : ℕ) → InSpan first.now v i → RunIsBeaten first.now head.now v i up.old down.old up.new down.new }
{
    for i in first[v] as usize..first[v + 1] as usize {
        pull_row(ranks, first, head, up, down, v, i);
    }
}

/// Lowers each link to what two links over a higher rank make, the highest rank first. Where the triangles were
/// pushed before, each is as long as the distance between its ends then.
pub(crate) fn pull_triangles(
    ranks: usize,
    first: &[u32],
    head: &[u32],
    up: &mut [u64],
    down: &mut [u64],
)
    requires can { CanPush ranks first.now head.now up.old down.old }
    ensures keeps { Keeps ranks first.now head.now 0 up.old down.old up.new down.new }
    ensures beaten { AreBeaten ranks first.now head.now 0 up.old down.old up.new down.new }
{
    let mut v = ranks;
    'sink: while v > 0 {
        v -= 1;
        pull_run(ranks, first, head, up, down, v);
    }
}
