//! Plans by several oracles, in threads.

ghost use Rattle.std.specs.Prelude.{◌≡◌, length, All, IfOk};
ghost use Rattle.road_model.specs.Dist.{HaveSameDist};

use crate::plans::{DEFAULT, OVER_A, query_of, text_of};
use forward_star::Star;
use road_model::{FreeGate, Gate};
use std::alloc::Global;
use std::sync::atomic::{AtomicBool, Ordering};
use std::test::Fail;
use std::thread::{Threads, yield_now};
use tree_search::PlainOracle;
use via_search::plan_forked;
use worked_graphs::{A, star_of};

/// As many turns as a part is held at most.
const TURNS: u32 = 1000000;

/// A gate that holds one part until another has entered.
#[derive(Drop)]
struct HoldingGate {
    held: u32,
    awaited: u32,
    entered: AtomicBool,
    waited_in_vain: AtomicBool,
}

impl HoldingGate {
    fn new(held: u32, awaited: u32) -> HoldingGate {
        HoldingGate {
            held,
            awaited,
            entered: AtomicBool::new(false),
            waited_in_vain: AtomicBool::new(false),
        }
    }

    fn has_entered(&self) -> bool {
        self.entered.load(Ordering::SeqCst)
    }

    fn let_both_through(&self) -> bool {
        self.has_entered() && !self.waited_in_vain.load(Ordering::SeqCst)
    }
}

impl Gate for HoldingGate {
    fn enter(&self, part: u32) {
        if part == self.awaited {
            self.entered.store(true, Ordering::SeqCst);
        }
        if part != self.held {
            return;
        }
        for _ in 0..TURNS {
            if self.has_entered() {
                return;
            }
            yield_now();
        }
        self.waited_in_vain.store(true, Ordering::SeqCst);
    }
}

fn oracles_of(alloc: Global, star: &Star, count: usize) -> Result<Vec<PlainOracle<'_, Star>>, Fail>
    ensures { IfOk result (λ os. All (λ o. HaveSameDist star.now o.graph) os.items) }
{
    star.within_limits();
    let mut oracles = Vec::new(alloc);
    for _ in 0..count {
        let oracle = PlainOracle::new(alloc, star)?;
        oracles.push(oracle)?;
    }
    Ok(oracles)
}

// The plan from 1 to 6 in the usual ratios, by so many oracles, as a text.
fn plan_by<R: Threads + Sync, G: Gate>(
    rt: &R,
    alloc: Global,
    gate: &G,
    star: &Star,
    count: usize,
) -> Result<String, Fail> {
    let query = query_of(star, (1, 6), DEFAULT)?;
    let mut oracles = oracles_of(alloc, star, count)?;
    if oracles.len() < 1 || oracles.len() > 9 {
        return Err("so many oracles are none or too many".into());
    }
    let plan = plan_forked(rt, alloc, gate, star, oracles.as_mut_slice(), &query)?;
    Ok(text_of(alloc, &plan)?)
}

#[test]
fn lists_the_same_by_each_number_of_oracles(rt: HostRuntime) -> Result<(), Fail> {
    let star = star_of(rt.alloc(), 6, A)?;
    for count in 1..4 {
        let text = plan_by(&rt, rt.alloc(), &FreeGate, &star, count)?;
        assert_eq!(rt; text.as_str(), OVER_A, "by {count} oracles");
    }
    Ok(())
}

#[test]
fn runs_its_two_searches_at_once(rt: HostRuntime) -> Result<(), Fail> {
    let star = star_of(rt.alloc(), 6, A)?;
    let gate = HoldingGate::new(0, 1);
    let text = plan_by(&rt, rt.alloc(), &gate, &star, 1)?;
    assert_eq!(rt; text.as_str(), OVER_A);
    assert!(rt; gate.let_both_through());
    Ok(())
}

#[test]
fn runs_its_pieces_at_once(rt: HostRuntime) -> Result<(), Fail> {
    let star = star_of(rt.alloc(), 6, A)?;
    let gate = HoldingGate::new(2, 3);
    let text = plan_by(&rt, rt.alloc(), &gate, &star, 2)?;
    assert_eq!(rt; text.as_str(), OVER_A);
    assert!(rt; gate.let_both_through());
    Ok(())
}
