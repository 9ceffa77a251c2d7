//! The tokens of a text.

ghost use Rattle.std.specs.Prelude.{◌≡◌, ◌≤◌, ◌<◌, ◌+◌, ◌++◌, length, OnOk};
ghost use Rattle.stan_model_doc.specs.Tokens.{doc_token, AreDocTokens};
ghost use Rattle.stan_doc_tokens.specs.Reading.{AddsTokens};
ghost use Rattle.stan_doc_tokens.specs.Quotes.{AreSeen};

use crate::literals::{begins_doc_number, doc_number, doc_quoted};
use crate::marks::doc_mark;
use crate::quotes::Seen;
use crate::words::{begins_name, begins_variable, doc_name, doc_variable};
use stan_base::OutOfMemory;
use stan_doc_lines::runs::Run;
use stan_model_doc::token::{DocKind, DocToken};
use stan_runs::runs::run_end;

// The token that begins at a place where no blank stands, by its kind and its end.
#[tactic(auto, using(crate::proofs::SeenLemmas::seen_later), unfolding(stan_model_doc::specs::Tokens::doc_token))]
fn doc_token(text: &[u8], at: usize, seen: &mut Seen) -> (DocKind, usize)
    requires within { at < length text.now }
    requires seen { AreSeen text.now at seen.old }
    ensures value { result ≡ doc_token text.now at }
    ensures rises { at < result.1 }
    ensures within { result.1 ≤ length text.now }
    ensures seen { AreSeen text.now (at + 1) seen.new }
{
    let byte = text[at];
    if begins_variable(text, at) {
        doc_variable(text, at)
    } else if begins_name(text, at) {
        doc_name(text, at)
    } else if begins_doc_number(text, at) {
        doc_number(text, at)
    } else if byte == b'\'' || byte == b'"' {
        doc_quoted(text, at, seen)
    } else {
        doc_mark(text, at)
    }
}

/// Adds the tokens of a text from a place on. Only memory can be wanting.
pub fn add_doc_tokens(
    tokens: &mut Vec<DocToken>,
    text: &[u8],
    from: usize,
) -> Result<(), OutOfMemory>
    requires small { length text.now < u32.MAX }
    ensures { OnOk result (AddsTokens text.now from tokens.old.items tokens.new.items) }
{
    let mut at = from;
    let mut seen = Seen {
        single: 0,
        double: 0,
    };
    'tokens: loop {
        let start = run_end(text, Run::Blanks, at);
        if start >= text.len() {
            break;
        }
        let (kind, end) = doc_token(text, start, &mut seen);
        tokens.push(DocToken {
            kind,
            start: start as u32,
            end: end as u32,
        })?;
        at = end;
    }
    Ok(())
}
