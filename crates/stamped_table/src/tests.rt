use super::*;
use std::alloc::Global;
use std::test::Fail;

// The values at the first four places, as "- 7 - -".
fn text_of(alloc: Global, table: &Table<u32>) -> Result<String, Fail> {
    let mut text = String::new(alloc);
    for place in 0..4 {
        match table.get(place) {
            Some(value) => write!(text, " {value}")?,
            None => write!(text, " -")?,
        }
    }
    Ok(text)
}

#[test]
fn tells_what_was_set_since_it_was_emptied(rt: HostRuntime) -> Result<(), Fail> {
    let mut table = Table::new(rt.alloc(), 0);
    // How many places to empty, which place to set to what, and what is told then.
    let rows = [
        (0, 1, 5, " - - - -"),
        (2, 1, 7, " - 7 - -"),
        (4, 3, 8, " - - - 8"),
        (1, 0, 9, " 9 - - -"),
    ];
    for (places, place, value, wanted) in rows {
        table.empty(places)?;
        table.set(place, value);
        let found = text_of(rt.alloc(), &table)?;
        assert_eq!(rt; found.as_str(), wanted);
    }
    assert_eq!(rt; table.len(), 4);
    Ok(())
}
