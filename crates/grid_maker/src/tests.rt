use super::*;
use rand_core::utils::NextWord;
use std::fmt::Write;
use std::test::Fail;

// The arcs of a grid of seed 0 (tail, head, length), and the word after them.
fn text_of(alloc: Global, width: u32, height: u32) -> Result<String, Fail> {
    let (graph, mut words) = make(alloc, 0, width, height)?;
    let mut text = String::new(alloc);
    for arc in graph.arcs() {
        let (tail, head, length) = (arc.tail.number(), arc.head.number(), arc.length);
        write!(text, "{tail} {head} {length}; ")?;
    }
    let word = words.next_word();
    write!(text, "{word}")?;
    Ok(text)
}

// Why no grid of these sides is made.
fn fault_of(alloc: Global, width: u32, height: u32) -> Option<MakeFault> {
    make(alloc, 0, width, height).err()
}

#[test]
fn takes_a_word_for_each_arc(rt: HostRuntime) -> Result<(), Fail> {
    let text = text_of(rt.alloc(), 2, 1)?;
    assert_eq!(rt; text.as_str(), "1 2 536; 2 1 701; 487617019471545679");
    let text = text_of(rt.alloc(), 2, 2)?;
    assert_eq!(rt;
        text.as_str(),
        "1 2 536; 2 1 701; 1 3 680; 3 1 445; 2 4 748; 4 2 91; 3 4 914; 4 3 941; 4532161160992623299"
    );
    let text = text_of(rt.alloc(), 1, 1)?;
    assert_eq!(rt; text.as_str(), "16294208416658607535");
    Ok(())
}

#[test]
fn refuses_sides_outside_1_to_4096(rt: HostRuntime) {
    for (width, height) in [(0, 1), (1, 0), (4097, 1), (1, 4097)] {
        assert_eq!(rt; fault_of(rt.alloc(), width, height), Some(MakeFault::Size));
    }
    assert_eq!(rt; fault_of(rt.alloc(), 4096, 1), None);
}
