//! Trees of tags and comments.

use crate::written::Written;
use sqlite_items::Items;
use stan_model_doc::token::{DocToken, TagSpan};

/// What a tag says, one variant a row of the grammar. `word` is the tag's word.
#[derive(Drop)]
pub enum TagForm {
    /// `@param`
    Param {
        word: DocToken,
        declared: Written,
        by_reference: bool,
        is_variadic: bool,
        variable: DocToken,
    },
    /// `@return`
    Return {
        word: DocToken,
        declared: Written,
    },
    /// `@var`
    Var {
        word: DocToken,
        declared: Written,
        variable: Option<DocToken>,
    },
    /// `@property`, `@property-read`, `@property-write`
    Property {
        word: DocToken,
        declared: Written,
        variable: DocToken,
    },
    /// `@method`
    Method {
        word: DocToken,
        is_static: bool,
        returned: Option<Written>,
        name: DocToken,
        parameters: Items<Parameter>,
    },
    /// `@template`, `@template-covariant`
    Template {
        word: DocToken,
        name: DocToken,
        bound: Option<Written>,
    },
    /// `@extends`, `@implements`, `@use`
    Inherit {
        word: DocToken,
        declared: Written,
    },
}

/// A parameter of a method.
#[derive(Drop)]
pub struct Parameter {
    pub declared: Written,
    pub variable: DocToken,
    /// How many tokens stand behind the `=`, if one stands there.
    pub default: Option<usize>,
}

/// A known tag of a comment.
#[derive(Drop)]
pub enum DocTag {
    /// What the longest front of its text spells.
    Tag { tag: TagSpan, form: TagForm },
    /// No front of its text is in the grammar.
    BadTag { tag: TagSpan },
}

/// The known tags of a comment, in order.
#[derive(Drop)]
pub struct DocTree {
    pub tags: Items<DocTag>,
}
