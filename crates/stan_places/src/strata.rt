//! Which tokens are operators, how tightly they bind, and which words stand where, in the rows of the definition.

ghost use Rattle.std.specs.Prelude.{◌≡◌, ◌≤◌};
ghost use Rattle.stan_expr_rules.specs.Parse as parse;
ghost use Rattle.stan_model_grammar.specs.Strata as spec;

use stan_model_grammar::keyword::is_keyword;
use stan_model_grammar::operators::{
    AssignmentOperator, BinaryOperator, Fixity, Leaf, PrefixOperator, Production, Visibility,
};
use stan_model_grammar::token::TokenKind;

/// The stratum of the loosest expression.
pub const LOOSEST: u8 = 29;

/// That of an operand.
pub const OPERAND: u8 = 5;

/// That of `??`, the loosest before and behind `? :`.
pub const COALESCE: u8 = 21;

/// That of `?:`.
pub const ELVIS: u8 = 23;

/// That of the value of an assignment.
pub const ASSIGNMENT: u8 = 24;

/// The expression that one token of this kind is.
pub fn leaf_of(kind: TokenKind) -> Option<Leaf>
    ensures { result ≡ spec.leaf_of kind }
{
    match kind {
        TokenKind::Integer => Some(Leaf::Integer),
        TokenKind::Float => Some(Leaf::Float),
        TokenKind::SingleQuoted
        | TokenKind::DoubleQuoted
        | TokenKind::Heredoc
        | TokenKind::Nowdoc => Some(Leaf::Text),
        TokenKind::Variable => Some(Leaf::Variable),
        TokenKind::Identifier
        | TokenKind::QualifiedName
        | TokenKind::FullyQualifiedName
        | TokenKind::RelativeName => Some(Leaf::Name),
        TokenKind::Static => Some(Leaf::Static),
        _ => None,
    }
}

/// The operator before an operand that a token of this kind is.
pub fn prefix_of(kind: TokenKind) -> Option<PrefixOperator>
    ensures { result ≡ spec.prefix_of kind }
{
    match kind {
        TokenKind::Clone => Some(PrefixOperator::Clone),
        TokenKind::Increment => Some(PrefixOperator::Increment),
        TokenKind::Decrement => Some(PrefixOperator::Decrement),
        TokenKind::Plus => Some(PrefixOperator::Plus),
        TokenKind::Minus => Some(PrefixOperator::Minus),
        TokenKind::Tilde => Some(PrefixOperator::BitwiseNot),
        TokenKind::AtSign => Some(PrefixOperator::Silence),
        TokenKind::IntCast => Some(PrefixOperator::IntCast),
        TokenKind::BoolCast => Some(PrefixOperator::BoolCast),
        TokenKind::FloatCast => Some(PrefixOperator::FloatCast),
        TokenKind::StringCast => Some(PrefixOperator::StringCast),
        TokenKind::ArrayCast => Some(PrefixOperator::ArrayCast),
        TokenKind::ObjectCast => Some(PrefixOperator::ObjectCast),
        TokenKind::Exclamation => Some(PrefixOperator::BooleanNot),
        TokenKind::Print => Some(PrefixOperator::Print),
        TokenKind::Include => Some(PrefixOperator::Include),
        TokenKind::IncludeOnce => Some(PrefixOperator::IncludeOnce),
        TokenKind::Require => Some(PrefixOperator::Require),
        TokenKind::RequireOnce => Some(PrefixOperator::RequireOnce),
        TokenKind::Throw => Some(PrefixOperator::Throw),
        _ => None,
    }
}

/// The stratum of the operand.
pub fn prefix_stratum(operator: PrefixOperator) -> u8
    ensures { result ≡ spec.prefix_stratum operator }
{
    match operator {
        PrefixOperator::Clone => 5,
        PrefixOperator::BooleanNot => 9,
        PrefixOperator::Print => 25,
        PrefixOperator::Include
        | PrefixOperator::IncludeOnce
        | PrefixOperator::Require
        | PrefixOperator::RequireOnce
        | PrefixOperator::Throw => 29,
        _ => 7,
    }
}

fn binary_of(kind: TokenKind) -> Option<BinaryOperator>
    ensures { result ≡ spec.binary_of kind }
{
    match kind {
        TokenKind::Power => Some(BinaryOperator::Power),
        TokenKind::InstanceOf => Some(BinaryOperator::InstanceOf),
        TokenKind::Star => Some(BinaryOperator::Multiply),
        TokenKind::Slash => Some(BinaryOperator::Divide),
        TokenKind::Percent => Some(BinaryOperator::Modulo),
        TokenKind::Plus => Some(BinaryOperator::Add),
        TokenKind::Minus => Some(BinaryOperator::Subtract),
        TokenKind::ShiftLeft => Some(BinaryOperator::ShiftLeft),
        TokenKind::ShiftRight => Some(BinaryOperator::ShiftRight),
        TokenKind::Dot => Some(BinaryOperator::Concatenate),
        TokenKind::Below => Some(BinaryOperator::Smaller),
        TokenKind::AtMost => Some(BinaryOperator::SmallerOrEqual),
        TokenKind::Above => Some(BinaryOperator::Greater),
        TokenKind::AtLeast => Some(BinaryOperator::GreaterOrEqual),
        TokenKind::LooselyEqual => Some(BinaryOperator::Equal),
        TokenKind::NotEqual | TokenKind::LessOrGreater => Some(BinaryOperator::NotEqual),
        TokenKind::Identical => Some(BinaryOperator::Identical),
        TokenKind::NotIdentical => Some(BinaryOperator::NotIdentical),
        TokenKind::Spaceship => Some(BinaryOperator::Spaceship),
        TokenKind::Ampersand => Some(BinaryOperator::BitwiseAnd),
        TokenKind::Caret => Some(BinaryOperator::BitwiseXor),
        TokenKind::Bar => Some(BinaryOperator::BitwiseOr),
        TokenKind::DoubleAmpersand => Some(BinaryOperator::BooleanAnd),
        TokenKind::DoubleBar => Some(BinaryOperator::BooleanOr),
        TokenKind::Coalesce => Some(BinaryOperator::Coalesce),
        TokenKind::And => Some(BinaryOperator::LogicalAnd),
        TokenKind::Xor => Some(BinaryOperator::LogicalXor),
        TokenKind::Or => Some(BinaryOperator::LogicalOr),
        _ => None,
    }
}

/// The operator that begins with a token, by the token behind it.
pub fn binary_at(kind: TokenKind, next: TokenKind) -> Option<BinaryOperator>
    ensures { result ≡ spec.binary_at kind next }
{
    match kind {
        TokenKind::Question => match next {
            TokenKind::Colon => Some(BinaryOperator::Elvis),
            _ => None,
        },
        _ => binary_of(kind),
    }
}

/// How many tokens spell it.
pub fn binary_size(operator: BinaryOperator) -> usize
    ensures { result ≡ spec.binary_size operator }
{
    match operator {
        BinaryOperator::Elvis => 2,
        _ => 1,
    }
}

/// The stratum of its operation.
pub fn binary_stratum(operator: BinaryOperator) -> u8
    ensures { result ≡ spec.binary_stratum operator }
{
    match operator {
        BinaryOperator::Power => 6,
        BinaryOperator::InstanceOf => 8,
        BinaryOperator::Multiply | BinaryOperator::Divide | BinaryOperator::Modulo => 10,
        BinaryOperator::Add | BinaryOperator::Subtract => 11,
        BinaryOperator::ShiftLeft | BinaryOperator::ShiftRight => 12,
        BinaryOperator::Concatenate => 13,
        BinaryOperator::Smaller
        | BinaryOperator::SmallerOrEqual
        | BinaryOperator::Greater
        | BinaryOperator::GreaterOrEqual => 14,
        BinaryOperator::Equal
        | BinaryOperator::NotEqual
        | BinaryOperator::Identical
        | BinaryOperator::NotIdentical
        | BinaryOperator::Spaceship => 15,
        BinaryOperator::BitwiseAnd => 16,
        BinaryOperator::BitwiseXor => 17,
        BinaryOperator::BitwiseOr => 18,
        BinaryOperator::BooleanAnd => 19,
        BinaryOperator::BooleanOr => 20,
        BinaryOperator::Coalesce => 21,
        BinaryOperator::Elvis => 23,
        BinaryOperator::LogicalAnd => 26,
        BinaryOperator::LogicalXor => 27,
        BinaryOperator::LogicalOr => 28,
    }
}

/// Which way operators of its stratum go together.
pub fn fixity(operator: BinaryOperator) -> Fixity
    ensures { result ≡ spec.fixity operator }
{
    match operator {
        BinaryOperator::Power | BinaryOperator::Coalesce => Fixity::Right,
        BinaryOperator::Smaller
        | BinaryOperator::SmallerOrEqual
        | BinaryOperator::Greater
        | BinaryOperator::GreaterOrEqual
        | BinaryOperator::Equal
        | BinaryOperator::NotEqual
        | BinaryOperator::Identical
        | BinaryOperator::NotIdentical
        | BinaryOperator::Spaceship => Fixity::Single,
        _ => Fixity::Left,
    }
}

/// The stratum of the operands of a stratum.
pub fn tighter(stratum: u8) -> u8
    ensures { result ≡ spec.tighter stratum }
{
    if stratum == 23 {
        21
    } else {
        stratum.saturating_sub(1)
    }
}

/// The stratum of the right side of an operator that makes no chain.
pub fn right_side(fixity: Fixity, stratum: u8) -> u8
    ensures { result ≡ spec.right_side fixity stratum }
{
    match fixity {
        Fixity::Right => stratum,
        _ => stratum.saturating_sub(1),
    }
}

fn assign(next: TokenKind) -> AssignmentOperator
    ensures { result ≡ spec.assign next }
{
    match next {
        TokenKind::Ampersand => AssignmentOperator::Reference,
        _ => AssignmentOperator::Assign,
    }
}

/// The operator that begins with a token, by the token behind it.
pub fn assignment_at(kind: TokenKind, next: TokenKind) -> Option<AssignmentOperator>
    ensures { result ≡ spec.assignment_at kind next }
{
    match kind {
        TokenKind::Assign => Some(assign(next)),
        TokenKind::PlusAssign => Some(AssignmentOperator::Add),
        TokenKind::MinusAssign => Some(AssignmentOperator::Subtract),
        TokenKind::TimesAssign => Some(AssignmentOperator::Multiply),
        TokenKind::DivideAssign => Some(AssignmentOperator::Divide),
        TokenKind::DotAssign => Some(AssignmentOperator::Concatenate),
        TokenKind::ModuloAssign => Some(AssignmentOperator::Modulo),
        TokenKind::PowerAssign => Some(AssignmentOperator::Power),
        TokenKind::AmpersandAssign => Some(AssignmentOperator::BitwiseAnd),
        TokenKind::BarAssign => Some(AssignmentOperator::BitwiseOr),
        TokenKind::CaretAssign => Some(AssignmentOperator::BitwiseXor),
        TokenKind::ShiftLeftAssign => Some(AssignmentOperator::ShiftLeft),
        TokenKind::ShiftRightAssign => Some(AssignmentOperator::ShiftRight),
        TokenKind::CoalesceAssign => Some(AssignmentOperator::Coalesce),
        _ => None,
    }
}

/// How many tokens spell it.
pub fn assignment_size(operator: AssignmentOperator) -> usize
    ensures { result ≡ spec.assignment_size operator }
{
    match operator {
        AssignmentOperator::Reference => 2,
        _ => 1,
    }
}

fn double_colon(next: TokenKind) -> u8
    ensures { result ≡ spec.double_colon next }
{
    match next {
        TokenKind::Variable => 2,
        _ => 4,
    }
}

fn joins_alone(kind: TokenKind, next: TokenKind) -> u8
    ensures { result ≡ spec.joins_alone kind next }
{
    match kind {
        TokenKind::Fn | TokenKind::Function => 0,
        TokenKind::LeftParenthesis => 1,
        TokenKind::DoubleColon => double_colon(next),
        TokenKind::LeftBracket | TokenKind::Arrow | TokenKind::NullsafeArrow => 3,
        TokenKind::Increment | TokenKind::Decrement => 4,
        TokenKind::Question => 22,
        _ => 30,
    }
}

/// The stratum in which a token goes on with the expression before it, by the token behind it: 30 for one that doesn't.
pub fn joins(kind: TokenKind, next: TokenKind) -> u8
    ensures { result ≡ spec.joins kind next }
{
    match binary_at(kind, next) {
        Some(operator) => binary_stratum(operator),
        None => match assignment_at(kind, next) {
            Some(_) => 5,
            None => joins_alone(kind, next),
        },
    }
}

/// Whether an expression may end before a token of this kind.
pub fn is_end(kind: TokenKind) -> bool
    ensures { result ≡ spec.is_end kind }
{
    match kind {
        TokenKind::End
        | TokenKind::ClosingTag
        | TokenKind::Semicolon
        | TokenKind::Comma
        | TokenKind::RightParenthesis
        | TokenKind::RightBracket
        | TokenKind::RightBrace
        | TokenKind::InsertionEnd
        | TokenKind::Colon
        | TokenKind::DoubleArrow
        | TokenKind::As => true,
        _ => false,
    }
}

/// Whether a token of this kind names a class.
pub fn names_class(kind: TokenKind) -> bool
    ensures { result ≡ spec.names_class kind }
{
    match kind {
        TokenKind::Identifier
        | TokenKind::QualifiedName
        | TokenKind::FullyQualifiedName
        | TokenKind::RelativeName
        | TokenKind::Static => true,
        _ => false,
    }
}

/// Whether it names a member behind `->`.
pub fn names_member(kind: TokenKind) -> bool
    ensures { result ≡ spec.names_member kind }
{
    match kind {
        TokenKind::Identifier | TokenKind::Variable => true,
        _ => false,
    }
}

/// Whether it is a part of a text with insertions.
pub fn is_part(kind: TokenKind) -> bool
    ensures { result ≡ spec.is_part kind }
{
    match kind {
        TokenKind::TextPiece
        | TokenKind::InsertedVariable
        | TokenKind::InsertedElement
        | TokenKind::InsertedProperty => true,
        _ => false,
    }
}

/// Whether it names a type.
pub fn names_type(kind: TokenKind) -> bool
    ensures { result ≡ spec.names_type kind }
{
    match kind {
        TokenKind::Array | TokenKind::Callable => true,
        _ => names_class(kind),
    }
}

/// Whether it names what stands behind `::`.
pub fn names_scoped(kind: TokenKind) -> bool
    ensures { result ≡ spec.names_scoped kind }
{
    match kind {
        TokenKind::Class => true,
        _ => names_member(kind),
    }
}

/// The visibility that a token of this kind says.
pub fn visibility_of(kind: TokenKind) -> Option<Visibility>
    ensures { result ≡ spec.visibility_of kind }
{
    match kind {
        TokenKind::Public => Some(Visibility::Public),
        TokenKind::Protected => Some(Visibility::Protected),
        TokenKind::Private => Some(Visibility::Private),
        _ => None,
    }
}

/// Whether it names an argument.
pub fn names_argument(kind: TokenKind) -> bool
    ensures { result ≡ spec.names_argument kind }
{
    match kind {
        TokenKind::Identifier => true,
        _ => is_keyword(kind),
    }
}

/// Whether it is `? :`.
pub fn stands_conditional(production: Production) -> bool
    ensures { result ≡ parse.stands_conditional production }
{
    match production {
        Production::Conditional => true,
        _ => false,
    }
}

/// Whether it is an arrow function.
pub fn stands_arrow(production: Production) -> bool
    ensures { result ≡ parse.stands_arrow production }
{
    match production {
        Production::Arrow => true,
        _ => false,
    }
}
