//! Trees of statements: one variant a production of the grammar, with its parts in order.

use sqlite_items::{Boxed, Items};
use stan_model_grammar::token::Token;
use stan_syntax::{Expr, TypeTree};

/// An expression, with what the bodies of its closures hold.
#[cycle(tree)]
#[derive(Drop)]
pub struct Value {
    /// Its bodies are held: they have their places.
    pub tree: Expr,
    /// One for each held body, from left to right.
    pub bodies: Items<ReadBody>,
}

/// The body of a closure.
#[cycle(tree)]
#[derive(Drop)]
pub struct ReadBody {
    /// How many levels of its expression are open around the braces, counted up to 201.
    pub levels: u32,
    /// The place of the token behind its `{`.
    pub from: u32,
    /// The place of its `}`.
    pub to: u32,
    pub statements: Items<Stmt>,
}

/// A statement.
#[cycle(tree)]
pub struct Stmt {
    /// The token with which it begins.
    pub first: Token,
    pub form: Form,
}

// Written out, so that letting a tree go is proved here alone, and not in each crate that lets one go.
impl Drop for Stmt {
    #[cycle(letting_go)]
    fn drop(self) {
        let Stmt { first: _, form } = self;
        drop(form);
    }
}

/// What a statement is made of, one variant a production, with its parts in order. `end` is the `;`, or the last `?>`.
#[cycle(tree)]
#[derive(Drop)]
pub enum Form {
    Block(Items<Stmt>),
    /// `;` alone
    Empty {
        end: Token,
    },
    Expression {
        value: Value,
        end: Token,
    },
    /// At least one value.
    Echo {
        values: Items<Value>,
        end: Token,
    },
    Return {
        value: Option<Value>,
        end: Token,
    },
    If {
        condition: Value,
        then: Boxed<Stmt>,
        else_ifs: Items<ElseIf>,
        otherwise: Option<Boxed<Stmt>>,
    },
    While {
        condition: Value,
        body: Boxed<Stmt>,
    },
    Do {
        body: Boxed<Stmt>,
        condition: Value,
        end: Token,
    },
    For {
        start: Items<Value>,
        conditions: Items<Value>,
        step: Items<Value>,
        body: Boxed<Stmt>,
    },
    ForEach {
        subject: Value,
        key: Option<Value>,
        by_reference: bool,
        /// What each element is put into, which may be a pattern.
        element: Value,
        body: Boxed<Stmt>,
    },
    Switch {
        subject: Value,
        cases: Items<Case>,
    },
    Break {
        /// The number of levels.
        levels: Option<Token>,
        end: Token,
    },
    Continue {
        levels: Option<Token>,
        end: Token,
    },
    /// At least one `catch`, or a `finally`.
    Try {
        body: Items<Stmt>,
        catches: Items<Catch>,
        finally: Option<Items<Stmt>>,
    },
    /// At least one value.
    Unset {
        values: Items<Value>,
        /// Whether a `,` stands behind the last.
        comma: bool,
        end: Token,
    },
    /// At least one variable.
    Global {
        variables: Items<Token>,
        end: Token,
    },
    /// At least one variable.
    Static {
        variables: Items<Variable>,
        end: Token,
    },
    /// At least one constant.
    Const {
        constants: Items<Constant>,
        end: Token,
    },
    Declare {
        /// The word `strict_types`.
        name: Token,
        number: Token,
        end: Token,
    },
    Function {
        by_reference: bool,
        name: Token,
        parameters: Items<Parameter>,
        /// Whether a `,` stands behind the last parameter.
        comma: bool,
        result: Option<TypeTree>,
        body: Items<Stmt>,
    },
    Class {
        /// `abstract` and `final`.
        modifiers: Items<Token>,
        name: Token,
        parent: Option<Token>,
        interfaces: Items<Token>,
        members: Items<ClassMember>,
    },
    Interface {
        name: Token,
        parents: Items<Token>,
        members: Items<ClassMember>,
    },
    Trait {
        name: Token,
        members: Items<ClassMember>,
    },
}

/// An `elseif`.
#[cycle(tree)]
#[derive(Drop)]
pub struct ElseIf {
    /// The token `elseif`.
    pub first: Token,
    pub condition: Value,
    pub then: Stmt,
}

/// A `case` or `default` of a `switch`.
#[cycle(tree)]
#[derive(Drop)]
pub struct Case {
    /// The token `case` or `default`.
    pub first: Token,
    /// What is compared. A `default` has none.
    pub value: Option<Value>,
    /// The `:` or `;`.
    pub mark: Token,
    pub statements: Items<Stmt>,
}

/// A `catch`.
#[cycle(tree)]
#[derive(Drop)]
pub struct Catch {
    /// The token `catch`.
    pub first: Token,
    /// The names of the classes, at least one.
    pub classes: Items<Token>,
    pub variable: Option<Token>,
    pub statements: Items<Stmt>,
}

/// A variable of `static`, or a property.
#[cycle(tree)]
#[derive(Drop)]
pub struct Variable {
    pub name: Token,
    pub value: Option<Value>,
}

/// A constant.
#[cycle(tree)]
#[derive(Drop)]
pub struct Constant {
    pub name: Token,
    pub value: Value,
}

/// A parameter of a function or a method.
#[cycle(tree)]
#[derive(Drop)]
pub struct Parameter {
    /// The token with which it begins.
    pub first: Token,
    /// `public`, `protected` or `private`.
    pub visibility: Option<Token>,
    pub declared: Option<TypeTree>,
    pub by_reference: bool,
    /// Whether `...` stands before it.
    pub is_variadic: bool,
    pub name: Token,
    pub default: Option<Value>,
}

/// A member of a class, an interface or a trait.
#[cycle(tree)]
#[derive(Drop)]
pub struct ClassMember {
    /// The token with which it begins.
    pub first: Token,
    pub form: Member,
}

/// What a member is made of, one variant a production, with its parts in order.
#[cycle(tree)]
#[derive(Drop)]
pub enum Member {
    TraitUse {
        /// At least one.
        traits: Items<Token>,
        /// What stands in braces, where they stand.
        adaptations: Option<Items<Adaptation>>,
    },
    Constants {
        modifiers: Items<Token>,
        /// At least one.
        constants: Items<Constant>,
    },
    Method {
        modifiers: Items<Token>,
        by_reference: bool,
        name: Token,
        parameters: Items<Parameter>,
        /// Whether a `,` stands behind the last parameter.
        comma: bool,
        result: Option<TypeTree>,
        body: Option<Items<Stmt>>,
    },
    Properties {
        /// At least one.
        modifiers: Items<Token>,
        declared: Option<TypeTree>,
        /// At least one.
        variables: Items<Variable>,
    },
}

/// What becomes of a method that a class takes from its traits.
#[derive(Drop)]
pub struct Adaptation {
    /// The trait that stands before `::`.
    pub from: Option<Token>,
    pub method: Token,
    pub adapting: Adapting,
}

/// What an adaptation does.
#[derive(Drop)]
pub enum Adapting {
    /// The traits whose method it stands for, at least one.
    InsteadOf(Items<Token>),
    /// A visibility, a name, or both.
    Alias {
        visibility: Option<Token>,
        name: Option<Token>,
    },
}
