//! How operators and the like are shown.

use stan_model_grammar::operators::{
    ArrayStyle, AssignmentOperator, BinaryOperator, Leaf, PrefixOperator, Visibility,
};

/// What stands before a token to say what it is, where its bytes don't.
pub fn leaf_mark(leaf: Leaf) -> &'static str {
    match leaf {
        Leaf::Integer => "",
        Leaf::Float => "float ",
        Leaf::Text => "text ",
        Leaf::Variable => "",
        Leaf::Name => "",
        Leaf::Static => "class ",
    }
}

pub fn array_mark(style: ArrayStyle) -> &'static str {
    match style {
        ArrayStyle::Brackets => "[",
        ArrayStyle::Array => "array[",
        ArrayStyle::List => "list[",
    }
}

pub fn visibility_mark(visibility: Option<Visibility>) -> &'static str {
    match visibility {
        None => "",
        Some(Visibility::Public) => "public ",
        Some(Visibility::Protected) => "protected ",
        Some(Visibility::Private) => "private ",
    }
}

pub fn prefix_mark(operator: PrefixOperator) -> &'static str {
    match operator {
        PrefixOperator::Clone => "clone",
        PrefixOperator::Increment => "++",
        PrefixOperator::Decrement => "--",
        PrefixOperator::Plus => "+",
        PrefixOperator::Minus => "-",
        PrefixOperator::BitwiseNot => "~",
        PrefixOperator::Silence => "@",
        PrefixOperator::IntCast => "(int)",
        PrefixOperator::BoolCast => "(bool)",
        PrefixOperator::FloatCast => "(float)",
        PrefixOperator::StringCast => "(string)",
        PrefixOperator::ArrayCast => "(array)",
        PrefixOperator::ObjectCast => "(object)",
        PrefixOperator::BooleanNot => "!",
        PrefixOperator::Print => "print",
        PrefixOperator::Include => "include",
        PrefixOperator::IncludeOnce => "include_once",
        PrefixOperator::Require => "require",
        PrefixOperator::RequireOnce => "require_once",
        PrefixOperator::Throw => "throw",
    }
}

pub fn binary_mark(operator: BinaryOperator) -> &'static str {
    match operator {
        BinaryOperator::Power => "**",
        BinaryOperator::InstanceOf => "instanceof",
        BinaryOperator::Multiply => "*",
        BinaryOperator::Divide => "/",
        BinaryOperator::Modulo => "%",
        BinaryOperator::Add => "+",
        BinaryOperator::Subtract => "-",
        BinaryOperator::ShiftLeft => "<<",
        BinaryOperator::ShiftRight => ">>",
        BinaryOperator::Concatenate => ".",
        BinaryOperator::Smaller => "<",
        BinaryOperator::SmallerOrEqual => "<=",
        BinaryOperator::Greater => ">",
        BinaryOperator::GreaterOrEqual => ">=",
        BinaryOperator::Equal => "==",
        BinaryOperator::NotEqual => "!=",
        BinaryOperator::Identical => "===",
        BinaryOperator::NotIdentical => "!==",
        BinaryOperator::Spaceship => "<=>",
        BinaryOperator::BitwiseAnd => "&",
        BinaryOperator::BitwiseXor => "^",
        BinaryOperator::BitwiseOr => "|",
        BinaryOperator::BooleanAnd => "&&",
        BinaryOperator::BooleanOr => "||",
        BinaryOperator::Coalesce => "??",
        BinaryOperator::Elvis => "?:",
        BinaryOperator::LogicalAnd => "and",
        BinaryOperator::LogicalXor => "xor",
        BinaryOperator::LogicalOr => "or",
    }
}

pub fn assignment_mark(operator: AssignmentOperator) -> &'static str {
    match operator {
        AssignmentOperator::Assign => "=",
        AssignmentOperator::Reference => "=&",
        AssignmentOperator::Add => "+=",
        AssignmentOperator::Subtract => "-=",
        AssignmentOperator::Multiply => "*=",
        AssignmentOperator::Divide => "/=",
        AssignmentOperator::Concatenate => ".=",
        AssignmentOperator::Modulo => "%=",
        AssignmentOperator::Power => "**=",
        AssignmentOperator::BitwiseAnd => "&=",
        AssignmentOperator::BitwiseOr => "|=",
        AssignmentOperator::BitwiseXor => "^=",
        AssignmentOperator::ShiftLeft => "<<=",
        AssignmentOperator::ShiftRight => ">>=",
        AssignmentOperator::Coalesce => "??=",
    }
}
