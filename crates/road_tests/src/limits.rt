//! Sources that never end.

use crate::graphs::SMALL;
use dimacs_reader::{GraphError, GraphFault, GraphKind, read_graph};
use road_io::{MemShelf, MemSink, NamedFile, Read, Source};
use route_server::{Status, run};
use std::test::Fail;

/// Gives one byte for ever.
#[derive(Drop)]
struct Endless {
    byte: u8,
}

impl Source for Endless {
    ghost use Rattle.std.specs.Prelude.{None};

    ghost left = { λ _. None };

    ghost faults = { λ _. 0 };

    ghost picked = { λ _. None };

    fn read(&mut self, room: &mut [u8]) -> Read {
        room.fill(self.byte);
        Read::Took(room.len())
    }
}

#[test]
fn a_file_that_never_ends_is_refused_at_its_limit(rt: HostRuntime) -> Result<(), Fail> {
    let mut source = Endless { byte: b'c' };
    let fault = GraphFault {
        line: 1,
        kind: GraphKind::FileLong,
    };
    match read_graph(rt.alloc(), &mut source) {
        Err(GraphError::Refused(found)) => assert_eq!(rt; found, fault),
        _ => assert!(rt; false),
    }
    Ok(())
}

#[test]
fn an_input_that_never_ends_is_left_at_its_limit(rt: HostRuntime) -> Result<(), Fail> {
    let files = [NamedFile {
        name: "a.gr",
        bytes: SMALL,
    }];
    let alloc = rt.alloc();
    let words = [
        String::from_str(alloc, "answer")?,
        String::from_str(alloc, "a.gr")?,
    ];
    let mut shelf = MemShelf::new(&files, 0, &[]);
    let mut input = Endless { byte: b' ' };
    let mut output = MemSink::new(alloc, &[]);
    let status = run(&rt, alloc, &words, &mut shelf, &mut input, &mut output);
    assert_eq!(rt; status, Status::InputLong);
    assert_eq!(rt; output.bytes().len(), 0);
    Ok(())
}
