//! Trees of types. Each token that a tree holds has its place in the comment.

use sqlite_items::{Boxed, Items};
use stan_model_doc::token::DocToken;

/// A type as it is written.
#[cycle(tree)]
#[derive(Drop)]
pub enum Written {
    /// `($x is T ? A : B)`
    Conditional {
        variable: DocToken,
        /// Whether `not` stands behind `is`.
        is_negated: bool,
        tested: Boxed<Written>,
        then: Boxed<Written>,
        otherwise: Boxed<Written>,
    },
    /// Types with `|` between them, at least one.
    Union(Items<Intersection>),
}

/// Types with `&` between them, at least one.
#[cycle(tree)]
#[derive(Drop)]
pub struct Intersection {
    pub types: Items<Unary>,
}

/// A type without `|` and `&`.
#[cycle(tree)]
#[derive(Drop)]
pub enum Unary {
    /// A type behind `?`.
    Nullable(Boxed<Unary>),
    /// An atom, and how many `[]` stand behind it.
    Suffixed { atom: Atom, arrays: usize },
}

/// What stands alone.
#[cycle(tree)]
#[derive(Drop)]
pub enum Atom {
    /// A type in brackets.
    Group(Boxed<Written>),
    /// `$this`
    This,
    /// An integer, a float or a quoted text.
    Literal(DocToken),
    /// `array{..}`
    Shape {
        fields: Items<Field>,
        /// Whether a `,` stands behind the last field.
        comma: bool,
    },
    /// `int<least, greatest>`: an integer each, or `min` and `max`.
    Range {
        least: DocToken,
        greatest: DocToken,
    },
    /// `callable(..)` or `Closure(..)`.
    Callable {
        name: DocToken,
        /// How many tokens stand between the brackets.
        parameters: usize,
        /// The type behind `:`.
        result: Option<Boxed<Unary>>,
    },
    /// `class::constant`, or `*` in the constant's place.
    Member {
        class: DocToken,
        constant: DocToken,
    },
    /// A name, with the types between `<` and `>`: none where these don't stand.
    Name {
        name: DocToken,
        arguments: Items<Written>,
    },
}

/// A field of a shape.
#[cycle(tree)]
#[derive(Drop)]
pub struct Field {
    pub key: Option<Key>,
    pub value: Written,
}

/// The key of a field.
#[derive(Clone, Copy, Debug)]
pub struct Key {
    /// An identifier, an integer or a quoted text.
    pub name: DocToken,
    /// Whether a `?` stands behind it.
    pub is_optional: bool,
}
