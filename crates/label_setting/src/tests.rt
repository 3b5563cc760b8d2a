use super::*;
use std::alloc::Global;
use std::test::Fail;

// Puts in entries at these distances, and takes them all out.
fn taken_out(alloc: Global, distances: &[u64]) -> Result<Vec<u64>, Fail> {
    let mut queue = Queue::new(alloc);
    for distance in distances {
        queue.push(Entry {
            distance: *distance,
            vertex: 1,
        })?;
    }
    let mut taken = Vec::new(alloc);
    for _ in distances {
        if let Some(entry) = queue.pop() {
            taken.push(entry.distance)?;
        }
    }
    Ok(taken)
}

#[test]
fn takes_the_nearest_first(rt: HostRuntime) -> Result<(), Fail> {
    let taken = taken_out(rt.alloc(), &[5, 3, 8, 0, 3, 7, 1, 9, 2, 6, 4])?;
    let wanted = [0, 1, 2, 3, 3, 4, 5, 6, 7, 8, 9];
    assert_eq!(rt; taken.as_slice(), wanted.as_slice());
    Ok(())
}
