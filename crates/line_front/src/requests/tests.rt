//! What lines say, in rows `line => answer`.

use crate::{Parsed, Role, read_request};
use road_model::{CursorQuery, ErrorKind, Request};
use std::alloc::{AllocError, Global};
use std::process::Abort;
use std::test::Fail;

/// A query, and the rest of what is asked about it.
fn told_query(alloc: Global, query: &CursorQuery, rest: &str) -> Result<String, AllocError> {
    let CursorQuery {
        from,
        to,
        gamma,
        alpha,
        epsilon,
    } = *query;
    format!(in alloc;
        "{from} {to} by {}/{} {}/{} {}/{}{rest}",
        gamma.0, gamma.1, alpha.0, alpha.1, epsilon.0, epsilon.1
    )
}

fn told_since(alloc: Global, since: Option<u64>) -> Result<String, AllocError> {
    match since {
        Some(version) => format!(in alloc; " since {version}"),
        None => format!(in alloc; ""),
    }
}

fn told_request(alloc: Global, request: Request) -> Result<String, AllocError> {
    match request {
        Request::Route { query, size, since } => {
            let since = told_since(alloc, since)?;
            let rest = format!(in alloc; " size {size}{}", since.as_str())?;
            let query = told_query(alloc, &query, rest.as_str())?;
            format!(in alloc; "route {}", query.as_str())
        }
        Request::Why { query, via, since } => {
            let since = told_since(alloc, since)?;
            let rest = format!(in alloc; " via {via}{}", since.as_str())?;
            let query = told_query(alloc, &query, rest.as_str())?;
            format!(in alloc; "why {}", query.as_str())
        }
        Request::Next { cursor } => {
            let rest = format!(in alloc;
                " version {} size {} offset {}",
                cursor.version, cursor.size, cursor.offset
            )?;
            let query = told_query(alloc, &cursor.query, rest.as_str())?;
            format!(in alloc; "next {}", query.as_str())
        }
        other => format!(in alloc; "{other:?}"),
    }
}

fn told(alloc: Global, parsed: Parsed) -> Result<String, AllocError> {
    match parsed {
        Parsed::Empty => format!(in alloc; "Empty"),
        Parsed::Request(request) => told_request(alloc, request),
        Parsed::Error(kind) => format!(in alloc; "{kind:?}"),
    }
}

/// Checks a row `line => answer`.
fn check<R: Abort>(rt: &R, alloc: Global, role: Role, row: &str) -> Result<(), Fail> {
    let (line, wanted) = row.split_once(" => ").unwrap_or((row, ""));
    let found = told(alloc, read_request(line.as_bytes(), role))?;
    assert_eq!(rt; found.as_str(), wanted, "{role:?}: {row}");
    Ok(())
}

#[test]
fn lines_of_each_kind(rt: HostRuntime) -> Result<(), Fail> {
    let rows = [
        "optimum 1 6 => Best { from: 1, to: 6 }",
        "route 1 6 => route 1 6 by 4/5 1/4 1/4 size 5",
        "route 1 6 size 3 since 2 => route 1 6 by 4/5 1/4 1/4 size 3 since 2",
        "route 1 6 epsilon 1/3 gamma 2/7 alpha 1/5 => route 1 6 by 2/7 1/5 1/3 size 5",
        "route 0 9 gamma 9/0 size 0 => route 0 9 by 9/0 1/4 1/4 size 0",
        "next 1.7.6.4.5.1.4.1.3.2.8 => next 7 6 by 4/5 1/4 1/3 version 1 size 2 offset 8",
        "why 1 6 3 => why 1 6 by 4/5 1/4 1/4 via 3",
        "why 1 6 3 since 4 gamma 0/1 => why 1 6 by 0/1 1/4 1/4 via 3 since 4",
        "version => Version",
        "length 3 7 => Length { arc: 3, length: 7 }",
        "publish => Publish",
        "quit => Quit",
        " => Empty",
        " \t  => Empty",
        "\t version  => Version",
        " optimum\t \t1 6\t => Best { from: 1, to: 6 }",
        "length 003 0000000000000000007 => Length { arc: 3, length: 7 }",
        "length 0 9999999999999999999 => Length { arc: 0, length: 9999999999999999999 }",
    ];
    for row in rows {
        check(&rt, rt.alloc(), Role::Both, row)?;
    }
    Ok(())
}

#[test]
fn lines_that_are_no_requests(rt: HostRuntime) -> Result<(), Fail> {
    let rows = [
        "routes 1 6 => Syntax",
        "Route 1 6 => Syntax",
        "1 => Syntax",
        "\u{e9} => Syntax",
        "version\u{a0} => Syntax",
        "version \u{e9} => Syntax",
        "quit\r\r => Syntax",
        "version 1 => Syntax",
        "publish now => Syntax",
        "optimum 1 => Syntax",
        "optimum 1 6 3 => Syntax",
        "optimum 1 6 size 5 => Syntax",
        "optimum 1 -6 => Syntax",
        "optimum 10000000000000000000 6 => Syntax",
        "length 3 00000000000000000007 => Syntax",
        "length 3 => Syntax",
        "route 1 => Syntax",
        "route 1 6 3 => Syntax",
        "route 1 6 size => Syntax",
        "route 1 6 size 3 since => Syntax",
        "route 1 6 size 3 size 3 => Syntax",
        "route 1 6 gamma 1/2 alpha 1/2 gamma 1/2 => Syntax",
        "route 1 6 beta 1/4 => Syntax",
        "route 1 6 since 1/4 => Syntax",
        "route 1 6 gamma 4 => Syntax",
        "route 1 6 gamma 4/ => Syntax",
        "route 1 6 gamma /5 => Syntax",
        "route 1 6 gamma 4/5/6 => Syntax",
        "route 1 6 gamma 4 / 5 => Syntax",
        "why 1 6 => Syntax",
        "why 1 6 3 size 5 => Syntax",
        "next => Syntax",
        "next x => BadCursor",
        "next 1.1.6 => BadCursor",
        "next 01.1.6.4.5.1.4.1.4.2.3 => BadCursor",
        "next 1.1.6.4.5.1.4.1.4.2.3 x => Syntax",
    ];
    for row in rows {
        check(&rt, rt.alloc(), Role::Both, row)?;
    }
    Ok(())
}

#[test]
fn requests_for_others(rt: HostRuntime) -> Result<(), Fail> {
    let reader = [
        "length 3 7 => Syntax",
        "publish => Syntax",
        "optimum 1 6 => Best { from: 1, to: 6 }",
        "next x => BadCursor",
        "version => Version",
        "quit => Quit",
    ];
    for row in reader {
        check(&rt, rt.alloc(), Role::Reader, row)?;
    }
    let publisher = [
        "length 3 7 => Length { arc: 3, length: 7 }",
        "publish => Publish",
        "optimum 1 6 => Syntax",
        "route 1 6 => Syntax",
        "next x => Syntax",
        "why 1 6 3 => Syntax",
        "version => Version",
        "quit => Quit",
    ];
    for row in publisher {
        check(&rt, rt.alloc(), Role::Publisher, row)?;
    }
    Ok(())
}

#[test]
fn lines_at_the_limit(rt: HostRuntime) {
    let mut line = [b' '; 1025];
    assert_eq!(rt; read_request(&line[..1024], Role::Both), Parsed::Empty);
    assert_eq!(rt;
        read_request(&line, Role::Both),
        Parsed::Error(ErrorKind::Long)
    );
    line[1020..1024].copy_from_slice(b"quit");
    assert_eq!(rt;
        read_request(&line[..1024], Role::Both),
        Parsed::Request(Request::Quit)
    );
    assert_eq!(rt;
        read_request(&line, Role::Both),
        Parsed::Error(ErrorKind::Long)
    );
}

#[test]
fn a_line_of_very_many_fields(rt: HostRuntime) {
    let mut line = [b' '; 1024];
    line[..9].copy_from_slice(b"route 1 6");
    for i in 5..512 {
        line[2 * i] = b'9';
    }
    assert_eq!(rt;
        read_request(&line, Role::Both),
        Parsed::Error(ErrorKind::Syntax)
    );
}
