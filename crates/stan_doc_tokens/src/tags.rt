//! The tokens of a tag.

ghost use Rattle.std.specs.Prelude.{◌≡◌, ◌≤◌, ◌<◌, ◌+◌, length, nat_eq, slice_range, IfOk, IsTrue};
ghost use Rattle.std.specs.List.{starts_with};
ghost use Rattle.stan_model_doc.specs.Tokens.{plain_word, wins, tag_kind, tag_word, tag_token, AreTagTokens};

use crate::marks::kind_of_word;
use crate::tokens::add_doc_tokens;
use stan_base::OutOfMemory;
use stan_model_doc::token::{DocKind, DocToken, TAG_WORDS, TagSpan, WINNING};
use std::alloc::Global;

/// Whether a tag of this word, which stands here without `@`, wins over the plain ones: it begins with `phpstan-`.
pub fn is_winning(word: &[u8]) -> bool
    ensures { result ≡ wins word.now }
{
    word.starts_with(WINNING.as_bytes())
}

fn plain_word(word: &[u8]) -> &[u8]
    ensures { result.now ≡ plain_word word.now }
{
    match word.strip_prefix(WINNING.as_bytes()) {
        Some(plain) => plain,
        None => word,
    }
}

/// The kind of a tag by its word without `@`.
#[tactic(auto, unfolding(stan_model_doc::specs::Tokens::tag_kind, stan_model_doc::specs::Tokens::tag_words))]
pub fn tag_kind(word: &[u8]) -> DocKind
    ensures { result ≡ tag_kind word.now }
{
    kind_of_word(&TAG_WORDS, DocKind::OtherTag, plain_word(word))
}

#[tactic(auto, unfolding(stan_model_doc::specs::Tokens::tag_token))]
fn tag_token(text: &[u8], span: &TagSpan) -> DocToken
    requires word { span.now.start < span.now.word_end }
    requires within { span.now.word_end ≤ length text.now }
    ensures { result ≡ tag_token text.now span.now }
{
    DocToken {
        kind: tag_kind(&text[span.start as usize + 1..span.word_end as usize]),
        start: span.start,
        end: span.word_end,
    }
}

/// The tokens of a tag of a comment's text: its word, and those of its text up to its end. Only memory can be wanting.
pub fn tag_tokens(alloc: Global, text: &[u8], span: &TagSpan) -> Result<Vec<DocToken>, OutOfMemory>
    requires word { span.now.start < span.now.word_end }
    requires order { span.now.word_end ≤ span.now.end }
    requires within { span.now.end ≤ length text.now }
    requires small { length text.now < u32.MAX }
    ensures { IfOk result (λ tokens. AreTagTokens text.now span.now tokens.items) }
{
    let mut tokens = Vec::new(alloc);
    tokens.push(tag_token(text, span))?;
    add_doc_tokens(
        &mut tokens,
        &text[..span.end as usize],
        span.word_end as usize,
    )?;
    Ok(tokens)
}
