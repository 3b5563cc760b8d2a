use crate::{ArcNo, ArcRow, ChangeFault, ErrorKind, Items, Ratio, RatioFault, Vertex};
use std::test::Fail;

#[test]
fn ratios_are_refused_by_denominator_and_then_by_size(rt: HostRuntime) -> Result<(), Fail> {
    let rows = [
        (4, 5, 1, None),
        (1, 1, 1, None),
        (4, 1, 4, None),
        (1000000, 1000000, 1, None),
        (0, 1, 1, None),
        (1, 0, 1, Some(RatioFault::Denominator)),
        (9, 1000001, 1, Some(RatioFault::Denominator)),
        (2, 1, 1, Some(RatioFault::TooLarge)),
        (17, 4, 4, Some(RatioFault::TooLarge)),
    ];
    for (num, den, cap, fault) in rows {
        match Ratio::new(num, den, cap) {
            Ok(ratio) => {
                assert_eq!(rt; fault, None);
                assert_eq!(rt; ratio.num(), num);
                assert_eq!(rt; ratio.den(), den);
            }
            Err(found) => assert_eq!(rt; fault, Some(found)),
        }
    }
    Ok(())
}

#[test]
fn a_refusal_has_a_word_a_number_and_a_text(rt: HostRuntime) -> Result<(), Fail> {
    let rows = [
        (
            ErrorKind::Long,
            "long",
            None,
            "the line has more than 1024 bytes",
        ),
        (
            ErrorKind::Behind(7),
            "behind",
            Some(7),
            "the version asked for is newer than version 7",
        ),
        (
            ErrorKind::Gone(1048576),
            "gone",
            Some(1048576),
            "the answer of the cursor isn't kept any more in version 1048576",
        ),
        (ErrorKind::Memory, "memory", None, "out of memory"),
    ];
    for (kind, word, number, text) in rows {
        assert_eq!(rt; kind.word(), word);
        assert_eq!(rt; kind.number(), number);
        assert_eq!(rt; format!(in rt.alloc(); "{kind}")?.as_str(), text);
    }
    Ok(())
}

#[test]
fn faults_say_what_is_wrong(rt: HostRuntime) -> Result<(), Fail> {
    let ratio = format!(in rt.alloc(); "{}", RatioFault::Denominator)?;
    assert_eq!(rt; ratio.as_str(), "the denominator is outside 1 to 1000000");
    let change = format!(in rt.alloc(); "{}", ChangeFault::LengthRange)?;
    assert_eq!(rt; change.as_str(), "the length is outside 1 to 4294967295");
    Ok(())
}

#[test]
fn comparisons_are_exact_at_the_edges(rt: HostRuntime) -> Result<(), Fail> {
    let most = (1u64 << 58) - 1;
    let rows = [
        (4, 5, 16, 20, true, false, false),
        (4, 5, 17, 20, false, true, false),
        (4, 5, 15, 20, true, false, true),
        (999999, 1000000, most, most, false, true, false),
        (1000000, 1000000, most, most, true, false, false),
        (0, 1, 0, most, true, false, false),
    ];
    for (num, den, part, whole, allows, above, below) in rows {
        let ratio = Ratio::new(num, den, 4).ok().ok_or("a ratio")?;
        assert_eq!(rt; ratio.allows(part, whole), allows);
        assert_eq!(rt; ratio.above(part, whole), above);
        assert_eq!(rt; ratio.below(part, whole), below);
    }
    let quarter = Ratio::new(1, 4, 4).ok().ok_or("a ratio")?;
    assert_eq!(rt; quarter.bound(21), 26);
    assert!(rt; quarter.stretches(26, 21));
    assert!(rt; !quarter.stretches(27, 21));
    let most_stretch = Ratio::new(4, 1, 4).ok().ok_or("a ratio")?;
    assert_eq!(rt; most_stretch.bound(most), 5 * most);
    Ok(())
}

#[test]
fn lists_and_graphs_give_back_what_they_were_made_of(rt: HostRuntime) -> Result<(), Fail> {
    let alloc = rt.alloc();
    let row = ArcRow {
        tail: Vertex(1),
        head: Vertex(2),
        length: 7,
    };
    let mut rows = Items::new(alloc);
    assert!(rt; rows.is_empty());
    rows.push(row)?;
    assert_eq!(rt; rows.len(), 1);
    let numbers = Items::from_slice(alloc, &[ArcNo(1)])?;
    assert_eq!(rt; numbers.as_slice()[0].number(), 1);
    assert_eq!(rt; numbers.into_vec().len(), 1);
    Ok(())
}
