//! Where the text of a comment begins and ends.

ghost use Rattle.std.specs.Prelude.{◌≡◌, ◌≤◌, length};
ghost use Rattle.stan_model_doc.specs.Comment.{has_opening, text_start, has_closing, text_end};

use stan_runs::bytes::byte_at;

fn has_opening(comment: &[u8]) -> bool
    ensures { result ≡ has_opening comment.now }
{
    byte_at(comment, 0) == b'/' && byte_at(comment, 1) == b'*' && byte_at(comment, 2) == b'*'
}

/// Behind the comment's `/**`, or 0 where none stands.
#[tactic(auto, unfolding(stan_model_doc::specs::Comment::text_start))]
pub fn text_start(comment: &[u8]) -> usize
    ensures value { result ≡ text_start comment.now }
    ensures within { result ≤ length comment.now }
{
    if has_opening(comment) && comment.len() >= 3 {
        3
    } else {
        0
    }
}

// Whether a `*/` stands at the end, behind the beginning of the text.
fn has_closing(comment: &[u8], from: usize) -> bool
    requires start { from ≡ text_start comment.now }
    requires within { from ≤ length comment.now }
    ensures { result ≡ has_closing comment.now }
{
    let len = comment.len();
    len - from >= 2 && comment[len - 2] == b'*' && comment[len - 1] == b'/'
}

/// Before the comment's `*/`, or its end where none stands behind the beginning of the text.
#[tactic(auto, unfolding(stan_model_doc::specs::Comment::text_end))]
pub fn text_end(comment: &[u8]) -> usize
    ensures value { result ≡ text_end comment.now }
    ensures within { result ≤ length comment.now }
    ensures rises { text_start comment.now ≤ result }
{
    let from = text_start(comment);
    if has_closing(comment, from) {
        comment.len() - 2
    } else {
        comment.len()
    }
}
