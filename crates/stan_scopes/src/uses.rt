//! What a `use` brings.

ghost use Rattle.std.specs.Prelude.{◌≡◌, ◌≢◌, ◌⊎◌, ℕ, ◌-◌, ◌<◌, ◌≤◌, [], ◌∷◌, ◌++◌, IfOk, length, map, slice_index};
ghost use Rattle.stan_base.specs.Name.{name_bytes};
ghost use Rattle.stan_model_grammar.specs.Tokens.{spelling};
ghost use Rattle.stan_model_walk.specs.Scopes as model;
ghost use Rattle.stan_names.specs.Scopes.{scope_of};
ghost use Rattle.stan_stmt_trees.specs.Files.{used_of};

use crate::spelling::spelling_of;
use stan_base::{AskKind, Name, OutOfMemory, begins_relative};
use stan_model_grammar::token::{Token, TokenKind};
use stan_names::Names;
use stan_stmt_trees::Used;
use std::alloc::Global;

// A name without the backslash in front.
fn without_backslash(written: &[u8]) -> &[u8]
    ensures { result.now ≡ model.without_backslash written.now }
{
    if written.first() == Some(&b'\\') {
        return &written[1..];
    }
    written
}

/// The full name that stands behind `use` or `namespace`. Only memory can be wanting.
pub fn full(alloc: Global, names: &Names, written: &[u8]) -> Result<Name, OutOfMemory>
    ensures { IfOk result (λ name. name_bytes name ≡ model.full (scope_of names.now) written.now) }
{
    if begins_relative(written) {
        return names.declared(alloc, &written[written.len().min(10)..]);
    }
    Name::new(alloc, without_backslash(written))
}

// How many bytes stand up to and with the last backslash.
fn front_len(name: &[u8]) -> usize
    ensures within { result ≤ length name.now }
    ensures ends { (result ≡ 0) ⊎ (slice_index name.now (result - 1) ≡ 92) }
    ensures last { (k : ℕ) → result ≤ k → k < length name.now → slice_index name.now k ≢ 92 }
{
    match name.iter().rposition(|byte| *byte == b'\\') {
        Some(at) => at + 1,
        None => 0,
    }
}

// What stands behind the last backslash of a name.
fn last_part(name: &[u8]) -> &[u8]
    ensures { result.now ≡ model.last_part name.now }
{
    &name[front_len(name)..]
}

// What a word before a name says of its kind.
fn ask_of_kind(kind: TokenKind) -> AskKind
    ensures { result ≡ model.ask_of_kind kind }
{
    match kind {
        TokenKind::Function => AskKind::Function,
        TokenKind::Const => AskKind::Constant,
        _ => AskKind::Class,
    }
}

// The kind of an item: in braces its own wins over that before them.
fn kind_of(outer: &Option<Token>, inner: &Option<Token>) -> AskKind
    ensures { result ≡ model.kind_of outer.now inner.now }
{
    match (inner, outer) {
        (Some(token), _) => ask_of_kind(token.kind),
        (None, Some(token)) => ask_of_kind(token.kind),
        (None, None) => AskKind::Class,
    }
}

// The name by which an item is known.
fn alias_of<'a>(source: &'a [u8], item: &Used) -> &'a [u8]
    ensures { result.now ≡ model.alias_of source.now (used_of item.now) }
{
    match &item.alias {
        Some(alias) => spelling_of(source, alias),
        None => last_part(spelling_of(source, &item.name)),
    }
}

// Adds what an item brings.
fn add(
    alloc: Global,
    source: &[u8],
    names: &mut Names,
    kind: &Option<Token>,
    item: &Used,
) -> Result<(), OutOfMemory>
    ensures { IfOk result (λ u. scope_of names.new ≡ model.with_uses (scope_of names.old) (model.used source.now (scope_of names.old) kind.now (used_of item.now) ∷ [])) }
{
    let name = full(alloc, names, spelling_of(source, &item.name))?;
    names.add(
        alloc,
        kind_of(kind, &item.kind),
        alias_of(source, item),
        &name,
    )
}

/// Adds what the items of a `use` without braces bring, in order. Only memory can be wanting.
pub fn add_all(
    alloc: Global,
    source: &[u8],
    names: &mut Names,
    kind: &Option<Token>,
    items: &[Used],
) -> Result<(), OutOfMemory>
    ensures { IfOk result (λ u. scope_of names.new ≡ model.with_uses (scope_of names.old) (map (λ x. model.used source.now (scope_of names.old) kind.now (used_of x)) items.now)) }
{
    for item in items {
        add(alloc, source, names, kind, item)?;
    }
    Ok(())
}

// A name behind that before the braces.
fn behind(alloc: Global, prefix: &[u8], written: &[u8]) -> Result<Name, OutOfMemory>
    ensures { IfOk result (λ name. name_bytes name ≡ prefix.now ++ 92 ∷ model.without_backslash written.now) }
{
    let mut bytes = prefix.to_vec(alloc)?;
    bytes.push(b'\\')?;
    bytes.extend_from_slice(without_backslash(written))?;
    Name::new(alloc, &bytes)
}

// Adds what an item in braces brings.
fn add_in(
    alloc: Global,
    source: &[u8],
    names: &mut Names,
    prefix: &[u8],
    kind: &Option<Token>,
    item: &Used,
) -> Result<(), OutOfMemory>
    ensures { IfOk result (λ u. scope_of names.new ≡ model.with_uses (scope_of names.old) (model.used_in source.now prefix.now kind.now (used_of item.now) ∷ [])) }
{
    let name = behind(alloc, prefix, spelling_of(source, &item.name))?;
    names.add(
        alloc,
        kind_of(kind, &item.kind),
        alias_of(source, item),
        &name,
    )
}

/// Adds what the items in the braces of a `use` bring, in order, each behind the name before the braces. Only memory can be wanting.
pub fn add_group(
    alloc: Global,
    source: &[u8],
    names: &mut Names,
    prefix: &[u8],
    kind: &Option<Token>,
    items: &[Used],
) -> Result<(), OutOfMemory>
    ensures { IfOk result (λ u. scope_of names.new ≡ model.with_uses (scope_of names.old) (map (λ x. model.used_in source.now prefix.now kind.now (used_of x)) items.now)) }
{
    for item in items {
        add_in(alloc, source, names, prefix, kind, item)?;
    }
    Ok(())
}
