//! The options of a request line.

ghost use Rattle.std.specs.Prelude.{◌≡◌, position};
ghost use Rattle.road_text.specs.Fields.{fields_of};
ghost use Rattle.line_front.specs.Requests.{fresh, is_slash, options_of, ratio_of, with_option};

use road_text::{first_field, number};

/// The options that a line gives, each at most once.
#[derive(Clone, Copy, Debug, PartialEq, Eq)]
pub struct Options {
    pub gamma: Option<(u64, u64)>,
    pub alpha: Option<(u64, u64)>,
    pub epsilon: Option<(u64, u64)>,
    pub since: Option<u64>,
    pub size: Option<u64>,
}

/// The options of a line that gives none.
const NO_OPTIONS: Options = Options {
    gamma: None,
    alpha: None,
    epsilon: None,
    since: None,
    size: None,
};

/// Where the first slash stands.
fn slash_place(field: &[u8]) -> Option<usize>
    ensures { result ≡ position is_slash field.now }
{
    field.iter().position(|byte| *byte == b'/')
}

/// The numbers of a field `N/D`.
fn ratio(field: &[u8]) -> Option<(u64, u64)>
    ensures { result ≡ ratio_of field.now }
{
    let slash = slash_place(field)?;
    number(&field[..slash]).zip(number(&field[slash + 1..]))
}

/// The value of an option that isn't given yet.
fn fresh<T: Copy>(given: Option<T>, value: Option<T>) -> Option<T>
    ensures { result ≡ fresh given value }
{
    match given {
        None => value,
        Some(_) => None,
    }
}

/// The options with one more, where the name is known, has no value yet and the value is one of its kind.
fn with_option(name: &[u8], value: &[u8], options: Options) -> Option<Options>
    ensures { result ≡ with_option name.now value.now options }
{
    if name == b"gamma".as_slice() {
        let gamma = Some(fresh(options.gamma, ratio(value))?);
        return Some(Options { gamma, ..options });
    }
    if name == b"alpha".as_slice() {
        let alpha = Some(fresh(options.alpha, ratio(value))?);
        return Some(Options { alpha, ..options });
    }
    if name == b"epsilon".as_slice() {
        let epsilon = Some(fresh(options.epsilon, ratio(value))?);
        return Some(Options { epsilon, ..options });
    }
    if name == b"since".as_slice() {
        let since = Some(fresh(options.since, number(value))?);
        return Some(Options { since, ..options });
    }
    if name == b"size".as_slice() {
        let size = Some(fresh(options.size, number(value))?);
        return Some(Options { size, ..options });
    }
    None
}

/// The options that the fields give, in pairs of a name and a value.
///
/// It calls itself once a pair, and a pair takes at least four bytes of the line, so it goes at most 256 deep over a
/// line of 1024.
#[tactic(auto, unfolding(crate::specs::Requests::options_of))]
pub(crate) fn read_options(fields: &[u8]) -> Option<Options>
    ensures { result ≡ options_of (fields_of fields.now) }
{
    let Some((name, beyond)) = first_field(fields) else {
        return Some(NO_OPTIONS);
    };
    let (value, rest) = first_field(beyond)?;
    let options = read_options(rest)?;
    with_option(name, value, options)
}
