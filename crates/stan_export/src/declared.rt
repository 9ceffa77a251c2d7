//! The walk through a file for what it declares.

ghost use Rattle.std.specs.Prelude.{◌≡◌, ◌++◌, IfOk, map};
ghost use Rattle.std.specs.List.{flat_map};
ghost use Rattle.stan_model_relations.specs.Exports as model;
ghost use Rattle.stan_model_statements.specs.TreeLists.{tops};
ghost use Rattle.stan_model_walk.specs.Scopes.{in_top, in_tops};
ghost use Rattle.stan_expr_walk.specs.Found.{finding_of, found_of};
ghost use Rattle.stan_names.specs.Scopes.{scope_of};
ghost use Rattle.stan_stmt_trees.specs.Files.{file_of, top_of};
ghost use Rattle.stan_stmt_trees.specs.Tree.{statement_of};
ghost use Rattle.stan_table.specs.Table.{node_of};

use crate::defines::push_defined;
use stan_base::OutOfMemory;
use stan_expr_walk::{Finding, Found};
use stan_names::Names;
use stan_scopes::{block, enter, outside, spelling_of};
use stan_stmt_trees::{FileTree, Stmt, Top};
use stan_stmt_walk::findings;
use stan_table::{ClassNode, ConstantNode, Exported, FunctionNode};
use std::alloc::Global;

/// What a file declares, in order of place: classes, interfaces and traits, functions, constants of `const` and of `define`, also those
/// in blocks, but none in functions and classes. `source` is what the tree was read from.
pub fn exports(alloc: Global, source: &[u8], tree: &FileTree) -> Result<Vec<Exported>, OutOfMemory>
    ensures { IfOk result (λ nodes. map node_of nodes.items ≡ model.exports_of_tops source.now (file_of tree.now).tops) }
{
    let mut nodes = Vec::new(alloc);
    let mut names = outside(alloc)?;
    tops_exports(alloc, source, &mut names, tree.tops.as_slice(), &mut nodes)?;
    Ok(nodes)
}

#[cycle(tops)]
fn tops_exports(
    alloc: Global,
    source: &[u8],
    names: &mut Names,
    list: &[Top],
    nodes: &mut Vec<Exported>,
) -> Result<(), OutOfMemory>
    ensures { IfOk result (λ u. map node_of nodes.new.items ≡ map node_of nodes.old.items ++ in_tops (model.exports_of_statement source.now) source.now (scope_of names.old) (tops (map top_of list.now))) }
{
    for top in list {
        top_exports(alloc, source, names, top, nodes)?;
        enter(alloc, source, names, top)?;
    }
    Ok(())
}

#[cycle(tops)]
fn top_exports(
    alloc: Global,
    source: &[u8],
    names: &Names,
    top: &Top,
    nodes: &mut Vec<Exported>,
) -> Result<(), OutOfMemory>
    ensures { IfOk result (λ u. map node_of nodes.new.items ≡ map node_of nodes.old.items ++ in_top (model.exports_of_statement source.now) source.now (scope_of names.now) (top_of top.now)) }
{
    match top {
        Top::Namespace { .. } => Ok(()),
        Top::NamespaceBlock { name, tops, .. } => {
            let mut inside = block(alloc, source, names, name)?;
            tops_exports(alloc, source, &mut inside, tops.as_slice(), nodes)
        }
        Top::Use { .. } => Ok(()),
        Top::UseGroup { .. } => Ok(()),
        Top::Plain(statement) => statement_exports(alloc, source, names, statement, nodes),
    }
}

fn statement_exports(
    alloc: Global,
    source: &[u8],
    names: &Names,
    statement: &Stmt,
    nodes: &mut Vec<Exported>,
) -> Result<(), OutOfMemory>
    ensures { IfOk result (λ u. map node_of nodes.new.items ≡ map node_of nodes.old.items ++ model.exports_of_statement source.now (scope_of names.now) (statement_of statement.now)) }
{
    let found = findings(alloc, statement)?;
    found_exports(alloc, source, names, found.as_slice(), nodes)
}

fn found_exports(
    alloc: Global,
    source: &[u8],
    names: &Names,
    found: &[Found],
    nodes: &mut Vec<Exported>,
) -> Result<(), OutOfMemory>
    ensures { IfOk result (λ u. map node_of nodes.new.items ≡ map node_of nodes.old.items ++ flat_map (λ f. model.export_of_found source.now (scope_of names.now) (found_of f)) found.now) }
{
    for it in found {
        found_export(alloc, source, names, *it, nodes)?;
    }
    Ok(())
}

fn found_export(
    alloc: Global,
    source: &[u8],
    names: &Names,
    found: Found,
    nodes: &mut Vec<Exported>,
) -> Result<(), OutOfMemory>
    ensures { IfOk result (λ u. map node_of nodes.new.items ≡ map node_of nodes.old.items ++ model.export_of_found source.now (scope_of names.now) (found_of found)) }
{
    if found.inner {
        return Ok(());
    }
    finding_export(alloc, source, names, found.finding, nodes)
}

fn finding_export(
    alloc: Global,
    source: &[u8],
    names: &Names,
    finding: Finding,
    nodes: &mut Vec<Exported>,
) -> Result<(), OutOfMemory>
    ensures { IfOk result (λ u. map node_of nodes.new.items ≡ map node_of nodes.old.items ++ model.export_of source.now (scope_of names.now) (finding_of finding)) }
{
    match finding {
        Finding::Calls(_) => Ok(()),
        Finding::Defines(name, text) => push_defined(alloc, source, names, name, text, nodes),
        Finding::Fetches(_) => Ok(()),
        Finding::DeclaresClass(token) => {
            let name = names.declared(alloc, spelling_of(source, &token))?;
            nodes.push(Exported::Class(ClassNode { name }))?;
            Ok(())
        }
        Finding::DeclaresFunction(token) => {
            let name = names.declared(alloc, spelling_of(source, &token))?;
            nodes.push(Exported::Function(FunctionNode { name }))?;
            Ok(())
        }
        Finding::DeclaresConstant(token) => {
            let name = names.declared(alloc, spelling_of(source, &token))?;
            nodes.push(Exported::Constant(ConstantNode { name }))?;
            Ok(())
        }
    }
}
