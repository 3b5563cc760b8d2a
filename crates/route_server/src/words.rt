//! The words of the command line.

ghost use Rattle.std.specs.Prelude.{◌≡◌, ◌≤◌, IfSome, map, string_bytes};
ghost use Rattle.grid_maker.specs.Grid.{IsSide};
ghost use Rattle.road_text.specs.Numbers.{number_of};
ghost use Rattle.route_server.specs.Words.{beyond_word, certify_of, command_of, for_file, for_files, grid_of, has_dash, make_of, name_of, other_name_of, survey_of, up_to, IsSized};

use road_text::number;

/// The longest side of a grid.
const MAX_SIDE: u64 = 4096;

/// The most queries of a survey.
const MAX_QUERIES: u64 = 10000;

/// A grid to be made.
#[derive(Clone, Copy, Debug, PartialEq, Eq)]
pub struct Grid {
    pub seed: u64,
    pub width: u32,
    pub height: u32,
}

/// The ends of a query: the numbers of the vertices that it leads from and to, which a graph needn't have.
#[derive(Clone, Copy, Debug, PartialEq, Eq)]
pub struct Ends {
    pub from: u64,
    pub to: u64,
}

/// What the words ask for. The graph file of `check`, `print`, `answer`, `recheck` and `certify` is the second word, and the
/// certificate of `recheck` the third.
#[derive(Clone, Copy, Debug, PartialEq, Eq)]
pub enum Command {
    Check,
    Print,
    Make(Grid),
    /// With the number of queries.
    Survey(Grid, u32),
    Answer,
    Recheck,
    Certify(Ends),
}

/// Whether a word begins with a dash.
fn has_dash(word: &[u8]) -> bool
    ensures { result ≡ has_dash word.now }
{
    match word {
        [] => false,
        [first, ..] => *first == b'-',
    }
}

/// The command, where one word follows that may name a file.
fn for_file(command: Command, words: &[String]) -> Option<Command>
    requires { IsSized command }
    ensures sized { IfSome result IsSized }
    ensures command { result ≡ for_file command (map (λ w. string_bytes w) words.now) }
{
    let [name] = words else {
        return None;
    };
    if has_dash(name.as_bytes()) {
        return None;
    }
    Some(command)
}

/// The command, where two words follow that may name files.
fn for_files(command: Command, words: &[String]) -> Option<Command>
    requires { IsSized command }
    ensures sized { IfSome result IsSized }
    ensures command { result ≡ for_files command (map (λ w. string_bytes w) words.now) }
{
    let [name, other] = words else {
        return None;
    };
    if has_dash(name.as_bytes()) || has_dash(other.as_bytes()) {
        return None;
    }
    Some(command)
}

/// A number from 1 to the greatest.
fn up_to(most: u64, word: &String) -> Option<u64>
    ensures number { result ≡ up_to most (string_bytes word.now) }
    ensures range { IfSome result (λ n. (1 ≤ n) × (n ≤ most)) }
{
    let n = number(word.as_bytes())?;
    if 1 <= n && n <= most { Some(n) } else { None }
}

/// The grid of three words.
fn read_grid(seed: &String, width: &String, height: &String) -> Option<Grid>
    ensures grid { result ≡ grid_of (string_bytes seed.now) (string_bytes width.now) (string_bytes height.now) }
    ensures sides { IfSome result (λ grid. IsSide grid.width × IsSide grid.height) }
{
    let seed = number(seed.as_bytes())?;
    let width = up_to(MAX_SIDE, width)? as u32;
    let height = up_to(MAX_SIDE, height)? as u32;
    Some(Grid {
        seed,
        width,
        height,
    })
}

/// The words after `make`.
fn read_make(words: &[String]) -> Option<Command>
    ensures command { result ≡ make_of (map (λ w. string_bytes w) words.now) }
    ensures sized { IfSome result IsSized }
{
    let [seed, width, height] = words else {
        return None;
    };
    Some(Command::Make(read_grid(seed, width, height)?))
}

/// The words after `survey`.
fn read_survey(words: &[String]) -> Option<Command>
    ensures command { result ≡ survey_of (map (λ w. string_bytes w) words.now) }
    ensures sized { IfSome result IsSized }
{
    let [seed, width, height, queries] = words else {
        return None;
    };
    let grid = read_grid(seed, width, height)?;
    let queries = up_to(MAX_QUERIES, queries)? as u32;
    Some(Command::Survey(grid, queries))
}

/// The words after `certify`.
fn read_certify(words: &[String]) -> Option<Command>
    ensures command { result ≡ certify_of (map (λ w. string_bytes w) words.now) }
    ensures sized { IfSome result IsSized }
{
    let [name, from, to] = words else {
        return None;
    };
    if has_dash(name.as_bytes()) {
        return None;
    }
    let from = number(from.as_bytes())?;
    let to = number(to.as_bytes())?;
    Some(Command::Certify(Ends { from, to }))
}

/// The command of a word and the words after it.
fn beyond_word(word: &str, words: &[String]) -> Option<Command>
    ensures command { result ≡ beyond_word word.now (map (λ w. string_bytes w) words.now) }
    ensures sized { IfSome result IsSized }
{
    if word == "check" {
        return for_file(Command::Check, words);
    }
    if word == "print" {
        return for_file(Command::Print, words);
    }
    if word == "make" {
        return read_make(words);
    }
    if word == "survey" {
        return read_survey(words);
    }
    if word == "answer" {
        return for_file(Command::Answer, words);
    }
    if word == "recheck" {
        return for_files(Command::Recheck, words);
    }
    if word == "certify" {
        return read_certify(words);
    }
    None
}

/// The command of a command line.
pub fn read_command(words: &[String]) -> Option<Command>
    ensures command { result ≡ command_of (map (λ w. string_bytes w) words.now) }
    ensures sized { IfSome result IsSized }
{
    let [word, beyond @ ..] = words else {
        return None;
    };
    beyond_word(word.as_str(), beyond)
}

/// The second word.
pub fn graph_name(words: &[String]) -> &str
    ensures { result.now ≡ name_of (map (λ w. string_bytes w) words.now) }
{
    match words {
        [_, name, ..] => name.as_str(),
        _ => "",
    }
}

/// The third word.
pub fn other_name(words: &[String]) -> &str
    ensures { result.now ≡ other_name_of (map (λ w. string_bytes w) words.now) }
{
    match words {
        [_, _, name, ..] => name.as_str(),
        _ => "",
    }
}
