//! What of a file the rules speak of.

ghost use Rattle.std.specs.Prelude.{◌≡◌, ◌<◌, ◌-◌, ◌^◌, IfOk, length, option_map};
ghost use Rattle.std.specs.Option.{option_to_list};
ghost use Rattle.stan_model_facts.specs.Facts as model;
ghost use Rattle.stan_model_walk.specs.Scopes.{without_backslash};
ghost use Rattle.stan_expr_walk.specs.Found.{finding_of};
ghost use Rattle.stan_names.specs.Scopes.{scope_of};
ghost use Rattle.stan_analyse.specs.Facts.{name_fact_of, fact_of};
ghost use Rattle.stan_analyse.specs.Lines.{AreFeeds};

use crate::lines::LineFeeds;
use stan_base::{AskKind, Name, OutOfMemory};
use stan_expr_walk::Finding;
use stan_model_grammar::token::Token;
use stan_names::Names;
use stan_scopes::spelling_of;
use std::alloc::Global;

/// A name that is looked up.
#[derive(Drop)]
pub struct NameFact {
    pub line: u32,
    /// What it means.
    pub name: Name,
    /// What it means where that is absent.
    pub second: Option<Name>,
}

/// Each is made here, of a name in the tree of a file.
#[derive(Drop)]
pub enum Fact {
    /// A call of a function by its name: rule 1.
    Call(NameFact),
    /// A constant: rule 15.
    Constant(NameFact),
}

fn without_backslash(name: &[u8]) -> &[u8]
    ensures { result.now ≡ without_backslash name.now }
{
    if name.first() == Some(&b'\\') {
        &name[1..]
    } else {
        name
    }
}

// Whether it is a literal, or a word that is known where it stands, and so no constant.
fn is_plain_word(word: &[u8]) -> bool
    ensures { result ≡ model.is_plain_word word.now }
{
    word.eq_ignore_ascii_case(b"true")
        || word.eq_ignore_ascii_case(b"false")
        || word.eq_ignore_ascii_case(b"null")
        || word.eq_ignore_ascii_case(b"__line__")
        || word.eq_ignore_ascii_case(b"__file__")
        || word.eq_ignore_ascii_case(b"__dir__")
        || word.eq_ignore_ascii_case(b"__function__")
        || word.eq_ignore_ascii_case(b"__class__")
        || word.eq_ignore_ascii_case(b"__trait__")
        || word.eq_ignore_ascii_case(b"__method__")
        || word.eq_ignore_ascii_case(b"__namespace__")
}

fn is_word(written: &[u8]) -> bool
    ensures { result ≡ model.is_word written.now }
{
    is_plain_word(without_backslash(written))
}

fn name_fact(
    alloc: Global,
    source: &[u8],
    feeds: &LineFeeds,
    names: &Names,
    kind: AskKind,
    token: Token,
) -> Result<NameFact, OutOfMemory>
    requires small { length source.now < 2 ^ 32 - 1 }
    requires feeds { AreFeeds source.now feeds.now }
    ensures { IfOk result (λ fact. name_fact_of fact ≡ model.name_fact source.now (scope_of names.now) kind token) }
{
    let (name, second) = names.fallback(alloc, kind, spelling_of(source, &token))?;
    let line = feeds.line_at(token.start);
    Ok(NameFact { line, name, second })
}

/// The fact that a finding is, if it is one. `names` are in force there, and `feeds` the line feeds of the source.
pub fn fact_there(
    alloc: Global,
    source: &[u8],
    feeds: &LineFeeds,
    names: &Names,
    finding: Finding,
) -> Result<Option<Fact>, OutOfMemory>
    requires small { length source.now < 2 ^ 32 - 1 }
    requires feeds { AreFeeds source.now feeds.now }
    ensures { IfOk result (λ fact. option_to_list (option_map fact_of fact) ≡ model.fact_of source.now (scope_of names.now) (finding_of finding)) }
{
    match finding {
        Finding::Calls(token) => {
            let fact = name_fact(alloc, source, feeds, names, AskKind::Function, token)?;
            Ok(Some(Fact::Call(fact)))
        }
        Finding::Fetches(token) => {
            if is_word(spelling_of(source, &token)) {
                return Ok(None);
            }
            let fact = name_fact(alloc, source, feeds, names, AskKind::Constant, token)?;
            Ok(Some(Fact::Constant(fact)))
        }
        Finding::Defines(..) => Ok(None),
        Finding::DeclaresClass(_) => Ok(None),
        Finding::DeclaresFunction(_) => Ok(None),
        Finding::DeclaresConstant(_) => Ok(None),
    }
}
