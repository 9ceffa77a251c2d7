//! Trees of PHP's expressions: one variant a production of the grammar, with its parts in order.

use sqlite_items::{Boxed, Items};
use stan_model_grammar::operators::{
    ArrayStyle, AssignmentOperator, BinaryOperator, Leaf, PrefixOperator, Visibility,
};
use stan_model_grammar::token::Token;

/// A written type, by the tokens of its names.
#[derive(Drop)]
pub enum TypeTree {
    /// The token `?`, and the name.
    Nullable(Token, Token),
    /// The first name, and the further ones behind `|`.
    Union(Token, Items<Token>),
}

/// An expression.
#[cycle(tree)]
pub struct Expr {
    /// The token with which it begins.
    pub first: Token,
    pub form: Form,
}

// Written out, so that letting a tree go is proved here alone, and not in each crate that lets one go.
impl Drop for Expr {
    #[cycle(letting_go)]
    fn drop(self) {
        let Expr { first: _, form } = self;
        drop(form);
    }
}

/// What an expression is made of, one variant a production, with its parts in order.
#[cycle(tree)]
#[derive(Drop)]
pub enum Form {
    /// One token, which is `first`.
    Leaf(Leaf),
    /// `( .. )`
    Brackets(Boxed<Expr>),
    Array {
        style: ArrayStyle,
        elements: Items<Element>,
        /// Whether a `,` stands behind the last.
        comma: bool,
    },
    IsSet {
        operands: Items<Expr>,
        comma: bool,
    },
    Empty(Boxed<Expr>),
    /// `exit` or `die`. Without arguments, or with one plain argument, it ends the program.
    Exit(Option<Arguments>),
    New(ClassReference, Option<Arguments>),
    Match {
        subject: Boxed<Expr>,
        arms: Items<Arm>,
        comma: bool,
    },
    Closure {
        is_static: bool,
        by_reference: bool,
        parameters: Items<Parameter>,
        comma: bool,
        /// The variables behind `use`.
        captures: Items<Token>,
        captures_comma: bool,
        result: Option<TypeTree>,
        body: Body,
    },
    Arrow {
        is_static: bool,
        by_reference: bool,
        parameters: Items<Parameter>,
        comma: bool,
        result: Option<TypeTree>,
        value: Boxed<Expr>,
    },
    /// A text with insertions.
    Text(Items<TextPart>),
    /// What stands first, and what is appended to it.
    Post(Boxed<Expr>, Items<Suffix>),
    Prefix(PrefixOperator, Boxed<Expr>),
    Assignment(Boxed<Expr>, AssignmentOperator, Boxed<Expr>),
    /// Operators of one stratum from the left: the first operand, and the operators with their operands.
    Chain(Boxed<Expr>, Items<Operation>),
    /// An operator that makes no chain, with the token at which it begins.
    Binary(Boxed<Expr>, Token, BinaryOperator, Boxed<Expr>),
    /// `? :`
    Conditional(Boxed<Expr>, Boxed<Expr>, Boxed<Expr>),
}

/// What stands between the brackets of a call.
#[cycle(tree)]
#[derive(Drop)]
pub struct Arguments {
    pub list: Items<Argument>,
    /// Whether a `,` stands behind the last.
    pub comma: bool,
}

/// An argument of a call.
#[cycle(tree)]
#[derive(Drop)]
pub enum Argument {
    Positional(Expr),
    /// `... value`
    Spread(Expr),
    /// The name's token, and the value.
    Named(Token, Expr),
}

/// An element of an array.
#[cycle(tree)]
#[derive(Drop)]
pub enum Element {
    /// `... value`
    Spread(Expr),
    Value {
        by_reference: bool,
        value: Expr,
    },
    Keyed {
        key: Expr,
        by_reference: bool,
        value: Expr,
    },
}

/// A parameter of a closure or an arrow function.
#[cycle(tree)]
#[derive(Drop)]
pub struct Parameter {
    pub visibility: Option<Visibility>,
    pub declared: Option<TypeTree>,
    pub by_reference: bool,
    /// Whether `...` stands before it.
    pub is_variadic: bool,
    pub variable: Token,
    pub default: Option<Boxed<Expr>>,
}

/// An arm of `match`.
#[cycle(tree)]
#[derive(Drop)]
pub enum Arm {
    Conditions {
        conditions: Items<Expr>,
        comma: bool,
        value: Expr,
    },
    Default {
        comma: bool,
        value: Expr,
    },
}

/// The class of a `new`.
#[cycle(tree)]
#[derive(Drop)]
pub enum ClassReference {
    /// A name or `static`.
    Named(Token),
    /// A variable, and what is appended to it.
    Variable(Token, Items<Suffix>),
    /// A name or `static`, the variable behind its `::`, and what is appended.
    Scoped(Token, Token, Items<Suffix>),
    /// `( .. )`
    Computed(Boxed<Expr>),
}

/// What is appended to an expression.
#[cycle(tree)]
#[derive(Drop)]
pub enum Suffix {
    /// `[]`
    Push,
    Index(Boxed<Expr>),
    /// `->` or `?->`, and with arguments a call of a method.
    Property {
        nullsafe: bool,
        name: MemberName,
        arguments: Option<Arguments>,
    },
    /// `::` with a name, a variable or `class` behind it, and with arguments a call.
    Scoped(Token, Option<Arguments>),
    Call(Arguments),
    Increment,
    Decrement,
}

/// What stands behind `->` or `?->`.
#[cycle(tree)]
#[derive(Drop)]
pub enum MemberName {
    /// A name or a variable.
    Named(Token),
    /// `{ .. }`
    Computed(Boxed<Expr>),
}

/// An operator with the operand behind it.
#[cycle(tree)]
#[derive(Drop)]
pub struct Operation {
    /// The token at which the operator begins.
    pub token: Token,
    pub operator: BinaryOperator,
    pub operand: Expr,
}

/// A part of a text with insertions.
#[cycle(tree)]
#[derive(Drop)]
pub enum TextPart {
    /// Fixed bytes, or an insertion of one token.
    Token(Token),
    /// `{ .. }`
    Expression(Expr),
}

/// The body of a closure.
#[cycle(tree)]
#[derive(Drop)]
pub enum Body {
    /// Not read: the place of the token behind its `{`, and the place of its `}`. The opening of an insertion counts as `{`.
    Held { from: u32, to: u32 },
    Read(Items<Stmt>),
}

/// A statement in the body of a closure.
#[cycle(tree)]
#[derive(Drop)]
pub enum Stmt {
    /// An expression and `;`
    Expression(Expr),
}
