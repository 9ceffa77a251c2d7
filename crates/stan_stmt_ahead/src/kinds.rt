//! Which kinds of tokens stand for what.

ghost use Rattle.std.specs.Prelude.{◌≡◌};
ghost use Rattle.stan_model_statements.specs.Kinds as kinds;
ghost use Rattle.stan_model_statements.specs.Kinds.{has};
ghost use Rattle.stan_stmt_rules.specs.Ahead as ahead;

use stan_model_grammar::token::TokenKind;

/// Whether it is a written name of a class, a function, a constant or a namespace.
#[tactic(auto, unfolding(stan_model_statements::specs::Kinds::same_kind))]
pub fn is_name(kind: TokenKind) -> bool
    ensures { result ≡ has kinds.names kind }
{
    match kind {
        TokenKind::Identifier => true,
        TokenKind::QualifiedName => true,
        TokenKind::FullyQualifiedName => true,
        TokenKind::RelativeName => true,
        _ => false,
    }
}

/// Whether it ends a statement: the last `?>` counts as `;`.
#[tactic(auto, unfolding(stan_model_statements::specs::Kinds::same_kind))]
pub fn is_statement_end(kind: TokenKind) -> bool
    ensures { result ≡ has kinds.ends kind }
{
    match kind {
        TokenKind::Semicolon => true,
        TokenKind::ClosingTag => true,
        _ => false,
    }
}

/// Whether it stands behind a `case`.
#[tactic(auto, unfolding(stan_model_statements::specs::Kinds::same_kind))]
pub fn is_case_end(kind: TokenKind) -> bool
    ensures { result ≡ has kinds.case_ends kind }
{
    match kind {
        TokenKind::Colon => true,
        TokenKind::Semicolon => true,
        _ => false,
    }
}

/// Whether it is what a `use` brings, besides classes.
#[tactic(auto, unfolding(stan_model_statements::specs::Kinds::same_kind))]
pub fn is_use_kind(kind: TokenKind) -> bool
    ensures { result ≡ has kinds.use_kinds kind }
{
    match kind {
        TokenKind::Function => true,
        TokenKind::Const => true,
        _ => false,
    }
}

/// Whether it is a visibility.
#[tactic(auto, unfolding(stan_model_statements::specs::Kinds::same_kind))]
pub fn is_visibility(kind: TokenKind) -> bool
    ensures { result ≡ has kinds.visibilities kind }
{
    match kind {
        TokenKind::Public => true,
        TokenKind::Protected => true,
        TokenKind::Private => true,
        _ => false,
    }
}

/// Whether it is a modifier of a class.
#[tactic(auto, unfolding(stan_model_statements::specs::Kinds::same_kind))]
pub fn is_class_modifier(kind: TokenKind) -> bool
    ensures { result ≡ has kinds.class_modifiers kind }
{
    match kind {
        TokenKind::Abstract => true,
        TokenKind::Final => true,
        _ => false,
    }
}

/// Whether it is a modifier of a member.
#[tactic(auto, unfolding(stan_model_statements::specs::Kinds::same_kind))]
pub fn is_modifier(kind: TokenKind) -> bool
    ensures { result ≡ has kinds.modifiers kind }
{
    match kind {
        TokenKind::Public => true,
        TokenKind::Protected => true,
        TokenKind::Private => true,
        TokenKind::Static => true,
        TokenKind::Abstract => true,
        TokenKind::Final => true,
        TokenKind::Var => true,
        _ => false,
    }
}

/// Whether it is a name of a type.
#[tactic(auto, unfolding(stan_model_statements::specs::Kinds::same_kind))]
pub fn is_type_name(kind: TokenKind) -> bool
    ensures { result ≡ has kinds.type_names kind }
{
    match kind {
        TokenKind::Identifier => true,
        TokenKind::QualifiedName => true,
        TokenKind::FullyQualifiedName => true,
        TokenKind::RelativeName => true,
        TokenKind::Array => true,
        TokenKind::Callable => true,
        TokenKind::Static => true,
        _ => false,
    }
}

/// Whether it is a name of a type with which the type of a property can begin, where no `|` follows.
#[tactic(auto, unfolding(stan_model_statements::specs::Kinds::same_kind))]
pub fn is_property_type_name(kind: TokenKind) -> bool
    ensures { result ≡ has kinds.property_type_names kind }
{
    match kind {
        TokenKind::Identifier => true,
        TokenKind::QualifiedName => true,
        TokenKind::FullyQualifiedName => true,
        TokenKind::RelativeName => true,
        TokenKind::Array => true,
        TokenKind::Callable => true,
        _ => false,
    }
}

/// Whether it names a member: an identifier or a keyword.
#[tactic(auto, unfolding(stan_model_statements::specs::Kinds::same_kind))]
pub fn is_member_name(kind: TokenKind) -> bool
    ensures { result ≡ has kinds.member_names kind }
{
    match kind {
        TokenKind::Identifier => true,
        TokenKind::Abstract => true,
        TokenKind::And => true,
        TokenKind::Array => true,
        TokenKind::As => true,
        TokenKind::Break => true,
        TokenKind::Callable => true,
        TokenKind::Case => true,
        TokenKind::Catch => true,
        TokenKind::Class => true,
        TokenKind::Clone => true,
        TokenKind::Const => true,
        TokenKind::Continue => true,
        TokenKind::Declare => true,
        TokenKind::Default => true,
        TokenKind::Die => true,
        TokenKind::Do => true,
        TokenKind::Echo => true,
        TokenKind::Else => true,
        TokenKind::ElseIf => true,
        TokenKind::Empty => true,
        TokenKind::Eval => true,
        TokenKind::Exit => true,
        TokenKind::Extends => true,
        TokenKind::Final => true,
        TokenKind::Finally => true,
        TokenKind::Fn => true,
        TokenKind::For => true,
        TokenKind::ForEach => true,
        TokenKind::Function => true,
        TokenKind::Global => true,
        TokenKind::Goto => true,
        TokenKind::If => true,
        TokenKind::Implements => true,
        TokenKind::Include => true,
        TokenKind::IncludeOnce => true,
        TokenKind::InstanceOf => true,
        TokenKind::InsteadOf => true,
        TokenKind::Interface => true,
        TokenKind::IsSet => true,
        TokenKind::List => true,
        TokenKind::Match => true,
        TokenKind::Namespace => true,
        TokenKind::New => true,
        TokenKind::Or => true,
        TokenKind::Print => true,
        TokenKind::Private => true,
        TokenKind::Protected => true,
        TokenKind::Public => true,
        TokenKind::Require => true,
        TokenKind::RequireOnce => true,
        TokenKind::Return => true,
        TokenKind::Static => true,
        TokenKind::Switch => true,
        TokenKind::Throw => true,
        TokenKind::Trait => true,
        TokenKind::Try => true,
        TokenKind::Unset => true,
        TokenKind::Use => true,
        TokenKind::Var => true,
        TokenKind::While => true,
        TokenKind::Xor => true,
        TokenKind::Yield => true,
        TokenKind::HaltCompiler => true,
        _ => false,
    }
}

/// Whether it is a new name of a method: no visibility.
#[tactic(auto, unfolding(stan_model_statements::specs::Kinds::same_kind))]
pub fn is_alias_name(kind: TokenKind) -> bool
    ensures { result ≡ has kinds.alias_names kind }
{
    match kind {
        TokenKind::Identifier => true,
        TokenKind::Abstract => true,
        TokenKind::And => true,
        TokenKind::Array => true,
        TokenKind::As => true,
        TokenKind::Break => true,
        TokenKind::Callable => true,
        TokenKind::Case => true,
        TokenKind::Catch => true,
        TokenKind::Class => true,
        TokenKind::Clone => true,
        TokenKind::Const => true,
        TokenKind::Continue => true,
        TokenKind::Declare => true,
        TokenKind::Default => true,
        TokenKind::Die => true,
        TokenKind::Do => true,
        TokenKind::Echo => true,
        TokenKind::Else => true,
        TokenKind::ElseIf => true,
        TokenKind::Empty => true,
        TokenKind::Eval => true,
        TokenKind::Exit => true,
        TokenKind::Extends => true,
        TokenKind::Final => true,
        TokenKind::Finally => true,
        TokenKind::Fn => true,
        TokenKind::For => true,
        TokenKind::ForEach => true,
        TokenKind::Function => true,
        TokenKind::Global => true,
        TokenKind::Goto => true,
        TokenKind::If => true,
        TokenKind::Implements => true,
        TokenKind::Include => true,
        TokenKind::IncludeOnce => true,
        TokenKind::InstanceOf => true,
        TokenKind::InsteadOf => true,
        TokenKind::Interface => true,
        TokenKind::IsSet => true,
        TokenKind::List => true,
        TokenKind::Match => true,
        TokenKind::Namespace => true,
        TokenKind::New => true,
        TokenKind::Or => true,
        TokenKind::Print => true,
        TokenKind::Require => true,
        TokenKind::RequireOnce => true,
        TokenKind::Return => true,
        TokenKind::Static => true,
        TokenKind::Switch => true,
        TokenKind::Throw => true,
        TokenKind::Trait => true,
        TokenKind::Try => true,
        TokenKind::Unset => true,
        TokenKind::Use => true,
        TokenKind::Var => true,
        TokenKind::While => true,
        TokenKind::Xor => true,
        TokenKind::Yield => true,
        TokenKind::HaltCompiler => true,
        _ => false,
    }
}

/// Whether it begins an expression, whatever stands behind it.
#[tactic(auto, unfolding(stan_model_statements::specs::Kinds::same_kind))]
pub fn begins_any_expression(kind: TokenKind) -> bool
    ensures { result ≡ has ahead.other_kinds kind }
{
    match kind {
        TokenKind::Variable => true,
        TokenKind::Integer => true,
        TokenKind::Float => true,
        TokenKind::SingleQuoted => true,
        TokenKind::DoubleQuoted => true,
        TokenKind::Heredoc => true,
        TokenKind::Nowdoc => true,
        TokenKind::TextStart => true,
        TokenKind::Identifier => true,
        TokenKind::QualifiedName => true,
        TokenKind::FullyQualifiedName => true,
        TokenKind::RelativeName => true,
        TokenKind::LeftParenthesis => true,
        TokenKind::LeftBracket => true,
        TokenKind::Array => true,
        TokenKind::List => true,
        TokenKind::IsSet => true,
        TokenKind::Empty => true,
        TokenKind::Exit => true,
        TokenKind::Die => true,
        TokenKind::New => true,
        TokenKind::Match => true,
        TokenKind::Fn => true,
        TokenKind::Clone => true,
        TokenKind::Increment => true,
        TokenKind::Decrement => true,
        TokenKind::Plus => true,
        TokenKind::Minus => true,
        TokenKind::Tilde => true,
        TokenKind::AtSign => true,
        TokenKind::IntCast => true,
        TokenKind::BoolCast => true,
        TokenKind::FloatCast => true,
        TokenKind::StringCast => true,
        TokenKind::ArrayCast => true,
        TokenKind::ObjectCast => true,
        TokenKind::Exclamation => true,
        TokenKind::Print => true,
        TokenKind::Include => true,
        TokenKind::IncludeOnce => true,
        TokenKind::Require => true,
        TokenKind::RequireOnce => true,
        TokenKind::Throw => true,
        _ => false,
    }
}

/// Whether it can begin an expression.
#[tactic(auto, unfolding(stan_model_statements::specs::Kinds::same_kind))]
pub fn begins_expression(kind: TokenKind) -> bool
    ensures { result ≡ has ahead.expression_kinds kind }
{
    match kind {
        TokenKind::Static => true,
        TokenKind::Function => true,
        TokenKind::Variable => true,
        TokenKind::Integer => true,
        TokenKind::Float => true,
        TokenKind::SingleQuoted => true,
        TokenKind::DoubleQuoted => true,
        TokenKind::Heredoc => true,
        TokenKind::Nowdoc => true,
        TokenKind::TextStart => true,
        TokenKind::Identifier => true,
        TokenKind::QualifiedName => true,
        TokenKind::FullyQualifiedName => true,
        TokenKind::RelativeName => true,
        TokenKind::LeftParenthesis => true,
        TokenKind::LeftBracket => true,
        TokenKind::Array => true,
        TokenKind::List => true,
        TokenKind::IsSet => true,
        TokenKind::Empty => true,
        TokenKind::Exit => true,
        TokenKind::Die => true,
        TokenKind::New => true,
        TokenKind::Match => true,
        TokenKind::Fn => true,
        TokenKind::Clone => true,
        TokenKind::Increment => true,
        TokenKind::Decrement => true,
        TokenKind::Plus => true,
        TokenKind::Minus => true,
        TokenKind::Tilde => true,
        TokenKind::AtSign => true,
        TokenKind::IntCast => true,
        TokenKind::BoolCast => true,
        TokenKind::FloatCast => true,
        TokenKind::StringCast => true,
        TokenKind::ArrayCast => true,
        TokenKind::ObjectCast => true,
        TokenKind::Exclamation => true,
        TokenKind::Print => true,
        TokenKind::Include => true,
        TokenKind::IncludeOnce => true,
        TokenKind::Require => true,
        TokenKind::RequireOnce => true,
        TokenKind::Throw => true,
        _ => false,
    }
}

/// Whether it can begin a statement.
#[tactic(auto, unfolding(stan_model_statements::specs::Kinds::same_kind))]
pub fn begins_statement(kind: TokenKind) -> bool
    ensures { result ≡ has ahead.statement_kinds kind }
{
    match kind {
        TokenKind::LeftBrace => true,
        TokenKind::Semicolon => true,
        TokenKind::ClosingTag => true,
        TokenKind::Echo => true,
        TokenKind::Return => true,
        TokenKind::If => true,
        TokenKind::While => true,
        TokenKind::Do => true,
        TokenKind::For => true,
        TokenKind::ForEach => true,
        TokenKind::Switch => true,
        TokenKind::Break => true,
        TokenKind::Continue => true,
        TokenKind::Try => true,
        TokenKind::Unset => true,
        TokenKind::Global => true,
        TokenKind::Static => true,
        TokenKind::Const => true,
        TokenKind::Declare => true,
        TokenKind::Function => true,
        TokenKind::Interface => true,
        TokenKind::Trait => true,
        TokenKind::Abstract => true,
        TokenKind::Final => true,
        TokenKind::Class => true,
        TokenKind::Variable => true,
        TokenKind::Integer => true,
        TokenKind::Float => true,
        TokenKind::SingleQuoted => true,
        TokenKind::DoubleQuoted => true,
        TokenKind::Heredoc => true,
        TokenKind::Nowdoc => true,
        TokenKind::TextStart => true,
        TokenKind::Identifier => true,
        TokenKind::QualifiedName => true,
        TokenKind::FullyQualifiedName => true,
        TokenKind::RelativeName => true,
        TokenKind::LeftParenthesis => true,
        TokenKind::LeftBracket => true,
        TokenKind::Array => true,
        TokenKind::List => true,
        TokenKind::IsSet => true,
        TokenKind::Empty => true,
        TokenKind::Exit => true,
        TokenKind::Die => true,
        TokenKind::New => true,
        TokenKind::Match => true,
        TokenKind::Fn => true,
        TokenKind::Clone => true,
        TokenKind::Increment => true,
        TokenKind::Decrement => true,
        TokenKind::Plus => true,
        TokenKind::Minus => true,
        TokenKind::Tilde => true,
        TokenKind::AtSign => true,
        TokenKind::IntCast => true,
        TokenKind::BoolCast => true,
        TokenKind::FloatCast => true,
        TokenKind::StringCast => true,
        TokenKind::ArrayCast => true,
        TokenKind::ObjectCast => true,
        TokenKind::Exclamation => true,
        TokenKind::Print => true,
        TokenKind::Include => true,
        TokenKind::IncludeOnce => true,
        TokenKind::Require => true,
        TokenKind::RequireOnce => true,
        TokenKind::Throw => true,
        _ => false,
    }
}
