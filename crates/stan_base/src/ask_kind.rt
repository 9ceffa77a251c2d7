//! What a look-up asks for.

/// What a name is looked up as.
#[derive(Clone, Copy, Debug, PartialEq, Eq)]
pub enum AskKind {
    Class,
    Function,
    Constant,
}
