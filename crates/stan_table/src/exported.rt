//! What other files can see of a declaration.

ghost use Rattle.std.specs.Prelude.{◌≡◌, IfOk};
ghost use Rattle.stan_base.specs.Name.{name_bytes};
ghost use Rattle.stan_model_table.specs.Table.{kind_of};
ghost use Rattle.stan_table.specs.Table.{node_of, declared_name};

use stan_base::{AskKind, Name, OutOfMemory};
use std::alloc::Global;

/// A class, an interface or a trait.
#[derive(Drop)]
pub struct ClassNode {
    pub name: Name,
}

/// A function.
#[derive(Drop)]
pub struct FunctionNode {
    pub name: Name,
}

/// A constant.
#[derive(Drop)]
pub struct ConstantNode {
    pub name: Name,
}

/// What other files see of a declaration, one variant a kind. A node holds no path, no line and no body.
#[derive(Drop)]
pub enum Exported {
    Class(ClassNode),
    Function(FunctionNode),
    Constant(ConstantNode),
}

impl Exported {
    /// The full name of what is declared.
    pub fn name(&self) -> &Name
        ensures { name_bytes result.now ≡ declared_name self.now }
    {
        match self {
            Exported::Class(node) => &node.name,
            Exported::Function(node) => &node.name,
            Exported::Constant(node) => &node.name,
        }
    }

    /// What it is looked up as.
    pub fn kind(&self) -> AskKind
        ensures { result ≡ kind_of (node_of self.now) }
    {
        match self {
            Exported::Class(_) => AskKind::Class,
            Exported::Function(_) => AskKind::Function,
            Exported::Constant(_) => AskKind::Constant,
        }
    }

    /// An equal node. Only memory can be wanting.
    pub fn copy(&self, alloc: Global) -> Result<Exported, OutOfMemory>
        ensures { IfOk result (λ node. node_of node ≡ node_of self.now) }
    {
        let name = self.name().copy(alloc)?;
        Ok(match self {
            Exported::Class(_) => Exported::Class(ClassNode { name }),
            Exported::Function(_) => Exported::Function(FunctionNode { name }),
            Exported::Constant(_) => Exported::Constant(ConstantNode { name }),
        })
    }
}
