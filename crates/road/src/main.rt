//! The program: hands the words, the files and the standard streams to [`route_server::run`], and says on standard
//! error how it ended.
#![tactic(auto)]

mod progress;

ghost use Rattle.std.specs.Prelude.{◌≡◌, ◌≢◌};

use crate::progress::{TellingShelf, TellingSource, Watch};
use road_io::{FileShelf, StdinSource, StdoutSink};
use route_server::{Status, run};
use std::io::{ErrorKind, IsTerminal};
use std::process::ExitCode;
use std::{env, io};

/// The words of all commands, a line each.
const COMMANDS: &str = "  road check GRAPH
  road print GRAPH
  road make SEED WIDTH HEIGHT
  road survey SEED WIDTH HEIGHT QUERIES
  road answer GRAPH < REQUESTS
  road recheck GRAPH CERTIFICATE
  road certify GRAPH FROM TO";

/// The words after the program's name.
fn words(rt: &HostRuntime) -> io::Result<Vec<String>> {
    let mut words = Vec::new(rt.alloc());
    for word in env::args(rt)?.skip(1) {
        words.push(word)?;
    }
    Ok(words)
}

/// How a run ends whose words couldn't be gathered. A word that isn't UTF-8 is no word of a command.
fn ends_without_words(kind: ErrorKind) -> Status
    ensures memory { kind ≡ ErrorKind.OutOfMemory → result ≡ Status.NoMemory }
    ensures usage { kind ≢ ErrorKind.OutOfMemory → result ≡ Status.Usage }
{
    match kind {
        ErrorKind::OutOfMemory => Status::NoMemory,
        _ => Status::Usage,
    }
}

/// Says on standard error how a run ended that isn't whole, and what may help.
fn tell(rt: &HostRuntime, status: Status, file: Option<&String>) {
    let _ = eprintln!(rt; "road: {status}");
    match (status, file) {
        (Status::CheckedNo(fault), _) => {
            let _ = eprintln!(rt; "{fault}");
        }
        (Status::Usage, _) => {
            let _ = eprintln!(rt; "the commands are:\n{COMMANDS}");
        }
        (Status::GraphRefused(_), Some(name)) => {
            let _ = eprintln!(rt;
                "the graph file is {name}; its form is that of the 9th DIMACS Challenge"
            );
        }
        (Status::ReadFault, Some(name)) => {
            let _ = eprintln!(rt;
                "the graph file is {name}; it, a certificate, or the standard input, can't be read"
            );
        }
        (Status::QueryRefused, Some(name)) => {
            let _ = eprintln!(rt;
                "the vertices of {name} have the numbers from 1 to that of its line p"
            );
        }
        _ => {}
    }
}

fn main(rt: HostRuntime) -> ExitCode {
    let words = match words(&rt) {
        Ok(words) => words,
        Err(error) => {
            let status = ends_without_words(error.kind());
            tell(&rt, status, None);
            return ExitCode::from(status.number());
        }
    };
    let watch = Watch::start(&rt, rt.stderr().is_terminal());
    let mut shelf = TellingShelf::new(&rt, watch, FileShelf::new(&rt));
    let mut input = TellingSource::new(&rt, watch, StdinSource::new(&rt));
    let mut output = StdoutSink::new(&rt);
    let status = run(&rt, rt.alloc(), &words, &mut shelf, &mut input, &mut output);
    if status != Status::Done {
        tell(&rt, status, words.get(1));
    }
    ExitCode::from(status.number())
}
