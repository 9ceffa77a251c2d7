//! The words of the command line.

ghost use Rattle.std.specs.Prelude.{◌≡◌, map, string_bytes};
ghost use Rattle.std.specs.List.{list_any};
ghost use Rattle.stan_cli.specs.Project.{leads_outside, has_parent_part};
ghost use Rattle.stan_cli.specs.Words.{refused_part, refused_options, refused_paths, are_positional, none_is_option};

/// Which part of the words is refused.
#[derive(Clone, Copy, Debug, PartialEq, Eq)]
pub enum WordsPart {
    /// The first word is missing or is no command.
    Command,
    /// The options are not those of the command, or no path is given.
    Options,
    /// A path begins with `/` or has a part `..`.
    Value,
}

/// The part of the words that is refused, if one is. The first that fits is told.
pub fn refused_part(words: &[String]) -> Option<WordsPart>
    ensures { result ≡ refused_part (map string_bytes words.now) }
{
    match words.split_first() {
        Some((command, options)) => {
            if command.as_str() == "analyse" {
                refused_options(options)
            } else {
                Some(WordsPart::Command)
            }
        }
        None => Some(WordsPart::Command),
    }
}

fn refused_options(words: &[String]) -> Option<WordsPart>
    ensures { result ≡ refused_options (map string_bytes words.now) }
{
    match words.split_first() {
        Some((format, paths)) => {
            if format.as_str() == "--error-format=raw" && are_positional(paths) {
                refused_paths(paths)
            } else {
                Some(WordsPart::Options)
            }
        }
        None => Some(WordsPart::Options),
    }
}

// At least one path, and none that looks like an option.
fn are_positional(paths: &[String]) -> bool
    ensures { result ≡ are_positional (map string_bytes paths.now) }
{
    !paths.is_empty() && none_is_option(paths)
}

fn none_is_option(paths: &[String]) -> bool
    ensures { result ≡ none_is_option (map string_bytes paths.now) }
{
    paths.iter().all(|path| !path.as_bytes().starts_with(b"-"))
}

fn refused_paths(paths: &[String]) -> Option<WordsPart>
    ensures { result ≡ refused_paths (map string_bytes paths.now) }
{
    if one_leads_outside(paths) {
        Some(WordsPart::Value)
    } else {
        None
    }
}

fn one_leads_outside(paths: &[String]) -> bool
    ensures { result ≡ list_any leads_outside (map string_bytes paths.now) }
{
    paths.iter().any(|path| leads_outside(path.as_str()))
}

fn leads_outside(path: &str) -> bool
    ensures { result ≡ leads_outside path.now }
{
    path.as_bytes().starts_with(b"/") || has_parent_part(path)
}

fn has_parent_part(path: &str) -> bool
    ensures { result ≡ has_parent_part path.now }
{
    path.split('/').any(|part| part == "..")
}
