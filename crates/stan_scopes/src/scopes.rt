//! The namespace and the uses behind each declaration of a file.

ghost use Rattle.std.specs.Prelude.{◌≡◌, IfOk};
ghost use Rattle.stan_model_grammar.specs.Tokens.{spelling};
ghost use Rattle.stan_model_walk.specs.Scopes as model;
ghost use Rattle.stan_names.specs.Scopes.{scope_of};
ghost use Rattle.stan_stmt_trees.specs.Files.{top_of};

use crate::spelling::spelling_of;
use crate::uses::{add_all, add_group, full};
use stan_base::OutOfMemory;
use stan_model_grammar::token::Token;
use stan_names::Names;
use stan_stmt_trees::Top;
use std::alloc::Global;

/// What is in force outside of all namespaces, before any `use`. Only memory can be wanting.
pub fn outside(alloc: Global) -> Result<Names, OutOfMemory>
    ensures { IfOk result (λ names. scope_of names ≡ model.outside) }
{
    Names::new(alloc, b"")
}

// A namespace by the name behind its word.
fn namespace(
    alloc: Global,
    source: &[u8],
    names: &Names,
    name: &Token,
) -> Result<Names, OutOfMemory>
    ensures { IfOk result (λ inside. scope_of inside ≡ model.in_namespace (model.full (scope_of names.now) (spelling source.now name.now))) }
{
    let name = full(alloc, names, spelling_of(source, name))?;
    Names::new(alloc, name.bytes())
}

/// What is in force where the block of a namespace begins, which may have no name: no uses. Only memory can be wanting.
pub fn block(
    alloc: Global,
    source: &[u8],
    names: &Names,
    name: &Option<Token>,
) -> Result<Names, OutOfMemory>
    ensures { IfOk result (λ inside. scope_of inside ≡ model.block_scope source.now (scope_of names.now) name.now) }
{
    match name {
        Some(name) => namespace(alloc, source, names, name),
        None => outside(alloc),
    }
}

/// Makes what is in force before a declaration or a statement what is so behind it. Where memory is wanting, some of the uses may be
/// added.
pub fn enter(alloc: Global, source: &[u8], names: &mut Names, top: &Top) -> Result<(), OutOfMemory>
    ensures { IfOk result (λ u. scope_of names.new ≡ model.behind source.now (scope_of names.old) (top_of top.now)) }
{
    match top {
        Top::Namespace { name, .. } => {
            *names = namespace(alloc, source, names, name)?;
            Ok(())
        }
        Top::NamespaceBlock { .. } => Ok(()),
        Top::Use { kind, items, .. } => add_all(alloc, source, names, kind, items.as_slice()),
        Top::UseGroup {
            kind,
            name,
            items,
            ..
        } => {
            let prefix = full(alloc, names, spelling_of(source, name))?;
            add_group(alloc, source, names, prefix.bytes(), kind, items.as_slice())
        }
        Top::Plain(_) => Ok(()),
    }
}
