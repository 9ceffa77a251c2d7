//! Which production is read, by the kinds of the next tokens.

ghost use Rattle.std.specs.Prelude.{◌≡◌, option_map, length, ◌+◌};
ghost use Rattle.stan_model_grammar.specs.Strata as strata;
ghost use Rattle.stan_model_statements.specs.Symbols as sorts;
ghost use Rattle.stan_stmt_ahead.specs.Rules.{statement_rule, owner_rule};
ghost use Rattle.stan_stmt_rules.specs.Ahead as ahead;

use crate::kinds::begins_any_expression;
use stan_model_grammar::token::TokenKind;

/// The productions of statements.
#[derive(Clone, Copy, Debug)]
pub enum StatementRule {
    Block,
    Empty,
    Echo,
    Return,
    If,
    While,
    Do,
    For,
    ForEach,
    Switch,
    Break,
    Continue,
    Try,
    Unset,
    Global,
    Static,
    Const,
    Declare,
    Function,
    Interface,
    Trait,
    Class,
    Expression,
}

/// The production of a statement that begins with a word or a mark, and with no expression.
#[tactic(auto, unfolding(stan_model_statements::specs::Kinds::same_kind))]
pub fn statement_by(kind: TokenKind) -> Option<StatementRule>
    ensures { option_map statement_rule result ≡ ahead.find ahead.statement_choices kind }
{
    match kind {
        TokenKind::LeftBrace => Some(StatementRule::Block),
        TokenKind::Semicolon => Some(StatementRule::Empty),
        TokenKind::ClosingTag => Some(StatementRule::Empty),
        TokenKind::Echo => Some(StatementRule::Echo),
        TokenKind::Return => Some(StatementRule::Return),
        TokenKind::If => Some(StatementRule::If),
        TokenKind::While => Some(StatementRule::While),
        TokenKind::Do => Some(StatementRule::Do),
        TokenKind::For => Some(StatementRule::For),
        TokenKind::ForEach => Some(StatementRule::ForEach),
        TokenKind::Switch => Some(StatementRule::Switch),
        TokenKind::Break => Some(StatementRule::Break),
        TokenKind::Continue => Some(StatementRule::Continue),
        TokenKind::Try => Some(StatementRule::Try),
        TokenKind::Unset => Some(StatementRule::Unset),
        TokenKind::Global => Some(StatementRule::Global),
        TokenKind::Static => Some(StatementRule::Static),
        TokenKind::Const => Some(StatementRule::Const),
        TokenKind::Declare => Some(StatementRule::Declare),
        TokenKind::Function => Some(StatementRule::Function),
        TokenKind::Interface => Some(StatementRule::Interface),
        TokenKind::Trait => Some(StatementRule::Trait),
        TokenKind::Abstract => Some(StatementRule::Class),
        TokenKind::Final => Some(StatementRule::Class),
        TokenKind::Class => Some(StatementRule::Class),
        _ => None,
    }
}

/// Whether these are the first kinds of an expression.
#[tactic(auto, unfolding(stan_model_statements::specs::Kinds::same_kind))]
pub fn starts_expression(first: TokenKind, second: TokenKind, third: TokenKind) -> bool
    ensures { result ≡ ahead.starts first second third }
{
    match first {
        TokenKind::Static => second != TokenKind::Variable,
        TokenKind::Function => match second {
            TokenKind::LeftParenthesis => true,
            TokenKind::Ampersand => third == TokenKind::LeftParenthesis,
            _ => false,
        },
        kind => begins_any_expression(kind),
    }
}

/// The production of a statement, by the kinds of its next three tokens.
pub fn pick_statement(
    first: TokenKind,
    second: TokenKind,
    third: TokenKind,
) -> Option<StatementRule>
    ensures { option_map statement_rule result ≡ ahead.pick sorts.Statement first second third third }
{
    if starts_expression(first, second, third) {
        Some(StatementRule::Expression)
    } else {
        statement_by(first)
    }
}

/// The parts that may belong to several statements, each to the nearest.
#[derive(Clone, Copy, Debug)]
pub enum DanglingRule {
    Else,
    ElseIf,
    Catch,
    Finally,
}

/// The part that a token goes on with.
pub fn owner(kind: TokenKind) -> Option<DanglingRule>
    ensures { option_map owner_rule result ≡ ahead.owner kind }
{
    match kind {
        TokenKind::Else => Some(DanglingRule::Else),
        TokenKind::ElseIf => Some(DanglingRule::ElseIf),
        TokenKind::Catch => Some(DanglingRule::Catch),
        TokenKind::Finally => Some(DanglingRule::Finally),
        _ => None,
    }
}
