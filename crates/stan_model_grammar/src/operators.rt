//! What an expression of PHP is made of besides other expressions.

/// An expression of one token.
#[derive(Clone, Copy, Debug, PartialEq, Eq)]
pub enum Leaf {
    Integer,
    Float,
    /// A text without insertions.
    Text,
    Variable,
    /// A name of a function, a class or a constant.
    Name,
    /// The word `static`.
    Static,
}

/// How an array is spelled.
#[derive(Clone, Copy, Debug, PartialEq, Eq)]
pub enum ArrayStyle {
    /// `[..]`
    Brackets,
    /// `array(..)`
    Array,
    /// `list(..)`, which is only assigned to.
    List,
}

/// An operator before its operand.
#[derive(Clone, Copy, Debug, PartialEq, Eq)]
pub enum PrefixOperator {
    Clone,
    /// `++`
    Increment,
    /// `--`
    Decrement,
    Plus,
    Minus,
    /// `~`
    BitwiseNot,
    /// `@`
    Silence,
    IntCast,
    BoolCast,
    FloatCast,
    StringCast,
    ArrayCast,
    ObjectCast,
    /// `!`
    BooleanNot,
    Print,
    Include,
    IncludeOnce,
    Require,
    RequireOnce,
    Throw,
}

/// An operator between two operands.
#[derive(Clone, Copy, Debug, PartialEq, Eq)]
pub enum BinaryOperator {
    /// `**`
    Power,
    InstanceOf,
    Multiply,
    Divide,
    Modulo,
    Add,
    Subtract,
    ShiftLeft,
    ShiftRight,
    Concatenate,
    Smaller,
    SmallerOrEqual,
    Greater,
    GreaterOrEqual,
    /// `==`
    Equal,
    /// `!=` or `<>`
    NotEqual,
    /// `===`
    Identical,
    /// `!==`
    NotIdentical,
    /// `<=>`
    Spaceship,
    /// `&`
    BitwiseAnd,
    /// `^`
    BitwiseXor,
    /// `|`
    BitwiseOr,
    /// `&&`
    BooleanAnd,
    /// `||`
    BooleanOr,
    /// `??`
    Coalesce,
    /// `?:`, two tokens
    Elvis,
    /// The word `and`.
    LogicalAnd,
    /// The word `xor`.
    LogicalXor,
    /// The word `or`.
    LogicalOr,
}

/// What stands between the target of an assignment and its value.
#[derive(Clone, Copy, Debug, PartialEq, Eq)]
pub enum AssignmentOperator {
    /// `=`
    Assign,
    /// `= &`, two tokens
    Reference,
    /// `+=`
    Add,
    /// `-=`
    Subtract,
    /// `*=`
    Multiply,
    /// `/=`
    Divide,
    /// `.=`
    Concatenate,
    /// `%=`
    Modulo,
    /// `**=`
    Power,
    /// `&=`
    BitwiseAnd,
    /// `|=`
    BitwiseOr,
    /// `^=`
    BitwiseXor,
    /// `<<=`
    ShiftLeft,
    /// `>>=`
    ShiftRight,
    /// `??=`
    Coalesce,
}

/// Which way operators of one stratum go together.
#[derive(Clone, Copy, Debug, PartialEq, Eq)]
pub enum Fixity {
    /// A chain, from the left.
    Left,
    /// The right side may be an operation of the same stratum.
    Right,
    /// Neither side may.
    Single,
}

/// Who may use a member.
#[derive(Clone, Copy, Debug, PartialEq, Eq)]
pub enum Visibility {
    Public,
    Protected,
    Private,
}

/// The production of an expression: which form it has, whatever stands in it.
#[derive(Clone, Copy, Debug, PartialEq, Eq)]
pub enum Production {
    /// A number or a text of one token.
    Literal,
    Variable,
    /// A name of a function, a class or a constant.
    Name,
    /// The word `static`.
    Static,
    Brackets,
    Array,
    IsSet,
    Empty,
    Exit,
    New,
    Match,
    Closure,
    Arrow,
    /// A text with insertions.
    Text,
    /// What is appended to an expression.
    Post,
    Prefix,
    Assignment,
    Chain,
    Binary,
    Conditional,
}
