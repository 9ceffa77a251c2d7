//! Trees of PHP's statements, declarations and files, and how deep they are.
#![tactic(auto)]

mod depth;
mod statement;
mod top;

pub use statement::{
    Adaptation, Adapting, Case, Catch, ClassMember, Constant, ElseIf, Form, Member, Parameter,
    ReadBody, Stmt, Value, Variable,
};
pub use top::{FileTree, Top, Used};
