//! Trees of files: declarations and statements in a row.

ghost use Rattle.std.specs.Prelude.{◌≡◌, ◌^◌, ◌-◌, min};
ghost use Rattle.stan_model_statements.specs.Depth as model;
ghost use Rattle.stan_syntax.specs.Depth.{greatest};
ghost use Rattle.stan_stmt_trees.specs.Files.{top_of, file_of};

use crate::statement::Stmt;
use sqlite_items::Items;
use stan_model_grammar::token::Token;

/// A declaration or a statement. `first` is the token with which it begins, and `end` the `;`, or the last `?>`.
#[cycle(tops)]
#[derive(Drop)]
pub enum Top {
    Namespace {
        first: Token,
        name: Token,
        end: Token,
    },
    NamespaceBlock {
        first: Token,
        name: Option<Token>,
        tops: Items<Top>,
    },
    Use {
        first: Token,
        /// `function` or `const`.
        kind: Option<Token>,
        /// At least one.
        items: Items<Used>,
        end: Token,
    },
    UseGroup {
        first: Token,
        /// `function` or `const`.
        kind: Option<Token>,
        /// The name before the braces.
        name: Token,
        /// At least one.
        items: Items<Used>,
        /// Whether a `,` stands behind the last.
        comma: bool,
        end: Token,
    },
    Plain(Stmt),
}

/// What a `use` brings.
#[derive(Clone, Copy, Debug)]
pub struct Used {
    /// In braces `function` or `const`.
    pub kind: Option<Token>,
    pub name: Token,
    /// What stands behind `as`.
    pub alias: Option<Token>,
}

/// The tree of a file.
#[derive(Drop)]
pub struct FileTree {
    pub tops: Items<Top>,
    /// In order.
    pub comments: Items<Token>,
}

impl FileTree {
    /// How deep the file is, at most `u32::MAX`: as its deepest statement or declaration. A block of a namespace and the braces of a
    /// `use` are 1 deeper than what stands in them.
    pub fn depth(&self) -> u32
        ensures exact { result ≡ min (model.file_depth (file_of self.now)) (2 ^ 32 - 1) }
    {
        tops_depth(self.tops.as_slice())
    }
}

#[cycle(top_depths)]
fn tops_depth(tops: &[Top]) -> u32
    ensures { result ≡ min (greatest (λ x. model.top_depth (top_of x)) tops.now) (2 ^ 32 - 1) }
{
    let mut most = 0;
    for top in tops {
        most = top_depth(top).max(most);
    }
    most
}

#[cycle(top_depths)]
fn top_depth(top: &Top) -> u32
    ensures { result ≡ min (model.top_depth (top_of top.now)) (2 ^ 32 - 1) }
{
    match top {
        Top::Namespace { .. } => 0,
        Top::NamespaceBlock { tops, .. } => tops_depth(tops.as_slice()).saturating_add(1),
        Top::Use { .. } => 0,
        Top::UseGroup { .. } => 1,
        Top::Plain(statement) => statement.depth(),
    }
}
