//! A reader by three functions: one for what stands a level deeper in an expression, and two that may call it again with less room.

ghost use Rattle.stan_stmt_bodies.specs.Values.{leaves_of};
ghost use Rattle.stan_stmt_values.specs.Nests.{ReadsBelow, NestsValues, NestsStatements};

use crate::expressions::kind_behind;
use crate::strict::is_strict_types;
use stan_model_grammar::token::{Token, TokenKind};
use stan_places::stop::Stop;
use stan_stmt_parts::depth::Depth;
use stan_stmt_parts::parser::Reader;
use stan_stmt_trees::{Stmt, Value};
use stan_syntax::Expr;
use std::alloc::Global;

/// What reads the expressions and statements of a source.
#[derive(Drop)]
pub struct Nested<'s, E, F, G> {
    pub source: &'s [u8],
    /// The functions for values and statements may be called with less room than this.
    pub room: u32,
    pub expression: E,
    pub value: F,
    pub statement: G,
}

impl<
    's,
    E: Fn(Global, &[Token], u32, bool, u8, usize) -> Result<(Expr, usize), Stop>,
    F: Fn(Global, &[Token], &[u8], Depth, bool, usize) -> Result<(Value, usize), Stop>,
    G: Fn(Global, &[Token], &[u8], Depth, usize) -> Result<(Stmt, usize), Stop>,
> Reader for Nested<'s, E, F, G> {
    ghost leaves = { λ s. leaves_of s.source.now };

    ghost room = { λ s. s.room };

    ghost ready = { λ s. ReadsBelow (E.pre s.expression) (E.post s.expression) × NestsValues s.room (F.pre s.value) (F.post s.value) × NestsStatements s.room (G.pre s.statement) (G.post s.statement) };

    fn is_strict_types(&self, token: Token) -> bool {
        is_strict_types(self.source, token)
    }

    fn value(
        &self,
        alloc: Global,
        tokens: &[Token],
        depth: Depth,
        pattern: bool,
        place: usize,
    ) -> Result<(Value, usize), Stop> {
        (self.value)(alloc, tokens, self.source, depth, pattern, place)
    }

    fn behind(
        &self,
        alloc: Global,
        tokens: &[Token],
        depth: Depth,
        place: usize,
    ) -> Result<TokenKind, Stop> {
        kind_behind(&self.expression, alloc, tokens, depth.levels, place)
    }

    fn statement(
        &self,
        alloc: Global,
        tokens: &[Token],
        depth: Depth,
        place: usize,
    ) -> Result<(Stmt, usize), Stop> {
        (self.statement)(alloc, tokens, self.source, depth, place)
    }
}
