//! The reserved words among the kinds of tokens.

ghost use Rattle.std.specs.Prelude.{◌≡◌};
ghost use Rattle.stan_model_grammar.specs.Tokens.{is_keyword};

use crate::token::TokenKind;

/// Whether the token is one of the reserved words.
pub fn is_keyword(kind: TokenKind) -> bool
    ensures { result ≡ is_keyword kind }
{
    match kind {
        TokenKind::Abstract
        | TokenKind::And
        | TokenKind::Array
        | TokenKind::As
        | TokenKind::Break
        | TokenKind::Callable
        | TokenKind::Case
        | TokenKind::Catch
        | TokenKind::Class
        | TokenKind::Clone
        | TokenKind::Const
        | TokenKind::Continue
        | TokenKind::Declare
        | TokenKind::Default
        | TokenKind::Die
        | TokenKind::Do
        | TokenKind::Echo
        | TokenKind::Else
        | TokenKind::ElseIf
        | TokenKind::Empty
        | TokenKind::Eval
        | TokenKind::Exit
        | TokenKind::Extends
        | TokenKind::Final
        | TokenKind::Finally
        | TokenKind::Fn
        | TokenKind::For
        | TokenKind::ForEach
        | TokenKind::Function
        | TokenKind::Global
        | TokenKind::Goto
        | TokenKind::If
        | TokenKind::Implements
        | TokenKind::Include
        | TokenKind::IncludeOnce
        | TokenKind::InstanceOf
        | TokenKind::InsteadOf
        | TokenKind::Interface
        | TokenKind::IsSet
        | TokenKind::List
        | TokenKind::Match
        | TokenKind::Namespace
        | TokenKind::New
        | TokenKind::Or
        | TokenKind::Print
        | TokenKind::Private
        | TokenKind::Protected
        | TokenKind::Public
        | TokenKind::Require
        | TokenKind::RequireOnce
        | TokenKind::Return
        | TokenKind::Static
        | TokenKind::Switch
        | TokenKind::Throw
        | TokenKind::Trait
        | TokenKind::Try
        | TokenKind::Unset
        | TokenKind::Use
        | TokenKind::Var
        | TokenKind::While
        | TokenKind::Xor
        | TokenKind::Yield
        | TokenKind::HaltCompiler => true,
        _ => false,
    }
}
