//! Patterns of paths, in which `*` stands for any bytes.
#![tactic(auto)]

ghost use Rattle.std.specs.Prelude.{◌≡◌, ◌+◌, ◌≤◌, ◌↔◌, IsTrue, length, drop};
ghost use Rattle.stan_patterns.specs.Patterns.{BehindAny, Matches};

pub mod laws;

use memchr::{memchr, memmem};

const ANY: u8 = b'*';

/// Whether a pattern matches a whole text: each `*` stands for any bytes, none and `/` among them, and each other byte for itself.
/// It takes time by the lengths of both.
pub fn matches(pattern: &[u8], text: &[u8]) -> bool
    ensures { IsTrue result ↔ Matches pattern.now text.now }
{
    match memchr(ANY, pattern) {
        None => text == pattern,
        Some(at) => {
            text.starts_with(&pattern[..at])
                && matches_an_end(behind_run(pattern, at, 1), behind(text, at))
        }
    }
}

// Whether a pattern matches an end of a text. What stands before a `*` is taken where it stands first, since that leaves the most.
fn matches_an_end(pattern: &[u8], text: &[u8]) -> bool
    ensures { IsTrue result ↔ BehindAny (Matches pattern.now) text.now }
{
    let mut later = pattern;
    let mut rest = text;
    while let Some(at) = memchr(ANY, later) {
        let Some(place) = memmem::find(rest, &later[..at]) else {
            return false;
        };
        rest = behind_run(rest, place, at);
        later = behind_run(later, at, 1);
    }
    rest.ends_with(later)
}

fn behind(bytes: &[u8], count: usize) -> &[u8]
    requires { count ≤ length bytes.now }
    ensures { result.now ≡ drop count bytes.now }
{
    &bytes[count..]
}

// What stands behind so many bytes from a place on.
fn behind_run(bytes: &[u8], place: usize, count: usize) -> &[u8]
    requires { place + count ≤ length bytes.now }
    ensures { result.now ≡ drop (place + count) bytes.now }
{
    behind(behind(bytes, place), count)
}
