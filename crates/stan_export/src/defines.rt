//! Constants that PHP's `define` declares.

ghost use Rattle.std.specs.Prelude.{◌≡◌, ◌||◌, ◌++◌, ◌∷◌, [], IfOk, if◌then◌else◌, false, map, option_map};
ghost use Rattle.std.specs.Option.{option_map_or};
ghost use Rattle.stan_base.specs.Name.{name_bytes};
ghost use Rattle.stan_model_grammar.specs.Tokens.{spelling};
ghost use Rattle.stan_model_relations.specs.Exports as model;
ghost use Rattle.stan_model_walk.specs.Scopes.{without_backslash};
ghost use Rattle.stan_names.specs.Scopes.{scope_of};
ghost use Rattle.stan_table.specs.Table.{node_of};

use stan_base::{AskKind, Name, OutOfMemory};
use stan_lexer::text_value;
use stan_model_grammar::token::Token;
use stan_names::Names;
use stan_scopes::spelling_of;
use stan_table::{ConstantNode, Exported};
use std::alloc::Global;

fn is_define(name: &[u8]) -> bool
    ensures { result ≡ model.is_define name.now }
{
    name.eq_ignore_ascii_case(b"define")
}

fn is_second_define(name: &Option<Name>) -> bool
    ensures { result ≡ option_map_or model.is_define (option_map name_bytes name.now) false }
{
    match name {
        None => false,
        Some(name) => is_define(name.bytes()),
    }
}

// Whether the written name of a function may mean PHP's `define`, whatever is declared.
fn may_be_define(alloc: Global, names: &Names, written: &[u8]) -> Result<bool, OutOfMemory>
    ensures { IfOk result (λ may. may ≡ model.may_be_define (scope_of names.now) written.now) }
{
    let (first, second) = names.fallback(alloc, AskKind::Function, written)?;
    Ok(is_define(first.bytes()) || is_second_define(&second))
}

fn without_backslash(name: &[u8]) -> &[u8]
    ensures { result.now ≡ without_backslash name.now }
{
    if name.first() == Some(&b'\\') {
        &name[1..]
    } else {
        name
    }
}

// The constant whose name a text is. No namespace is put before it.
fn defined(alloc: Global, source: &[u8], text: Token) -> Result<Exported, OutOfMemory>
    ensures { IfOk result (λ node. node_of node ≡ model.defined source.now text) }
{
    let value = text_value(alloc, text.kind, spelling_of(source, &text))?;
    let name = Name::new(alloc, without_backslash(&value))?;
    Ok(Exported::Constant(ConstantNode { name }))
}

/// Puts the constant behind the others that a call by this name declares, if it may be one of `define`. The text is its first argument.
pub fn push_defined(
    alloc: Global,
    source: &[u8],
    names: &Names,
    name: Token,
    text: Token,
    nodes: &mut Vec<Exported>,
) -> Result<(), OutOfMemory>
    ensures { IfOk result (λ u. map node_of nodes.new.items ≡ map node_of nodes.old.items ++ (if model.may_be_define (scope_of names.now) (spelling source.now name) then model.defined source.now text ∷ [] else [])) }
{
    if may_be_define(alloc, names, spelling_of(source, &name))? {
        nodes.push(defined(alloc, source, text)?)?;
    }
    Ok(())
}
