//! Words by their kinds.

ghost use Rattle.stan_model_statements.specs.Kinds as kinds;

use crate::parser::Words;
use stan_model_grammar::token::TokenKind;
use stan_stmt_ahead::kinds::{
    is_alias_name, is_case_end, is_class_modifier, is_member_name, is_name, is_property_type_name,
    is_statement_end, is_type_name, is_use_kind, is_visibility,
};

pub struct Names;

impl Words for Names {
    ghost kinds = { kinds.names };

    fn include(kind: TokenKind) -> bool {
        is_name(kind)
    }
}

pub struct Ends;

impl Words for Ends {
    ghost kinds = { kinds.ends };

    fn include(kind: TokenKind) -> bool {
        is_statement_end(kind)
    }
}

pub struct CaseEnds;

impl Words for CaseEnds {
    ghost kinds = { kinds.case_ends };

    fn include(kind: TokenKind) -> bool {
        is_case_end(kind)
    }
}

pub struct UseKinds;

impl Words for UseKinds {
    ghost kinds = { kinds.use_kinds };

    fn include(kind: TokenKind) -> bool {
        is_use_kind(kind)
    }
}

pub struct Visibilities;

impl Words for Visibilities {
    ghost kinds = { kinds.visibilities };

    fn include(kind: TokenKind) -> bool {
        is_visibility(kind)
    }
}

pub struct ClassModifiers;

impl Words for ClassModifiers {
    ghost kinds = { kinds.class_modifiers };

    fn include(kind: TokenKind) -> bool {
        is_class_modifier(kind)
    }
}

pub struct TypeNames;

impl Words for TypeNames {
    ghost kinds = { kinds.type_names };

    fn include(kind: TokenKind) -> bool {
        is_type_name(kind)
    }
}

pub struct PropertyTypeNames;

impl Words for PropertyTypeNames {
    ghost kinds = { kinds.property_type_names };

    fn include(kind: TokenKind) -> bool {
        is_property_type_name(kind)
    }
}

pub struct MemberNames;

impl Words for MemberNames {
    ghost kinds = { kinds.member_names };

    fn include(kind: TokenKind) -> bool {
        is_member_name(kind)
    }
}

pub struct AliasNames;

impl Words for AliasNames {
    ghost kinds = { kinds.alias_names };

    fn include(kind: TokenKind) -> bool {
        is_alias_name(kind)
    }
}

pub struct Identifiers;

impl Words for Identifiers {
    ghost kinds = { kinds.identifiers };

    #[tactic(auto, unfolding(stan_model_statements::specs::Kinds::same_kind))]
    fn include(kind: TokenKind) -> bool {
        kind == TokenKind::Identifier
    }
}

pub struct Variables;

impl Words for Variables {
    ghost kinds = { kinds.variables };

    #[tactic(auto, unfolding(stan_model_statements::specs::Kinds::same_kind))]
    fn include(kind: TokenKind) -> bool {
        kind == TokenKind::Variable
    }
}

pub struct Integers;

impl Words for Integers {
    ghost kinds = { kinds.integers };

    #[tactic(auto, unfolding(stan_model_statements::specs::Kinds::same_kind))]
    fn include(kind: TokenKind) -> bool {
        kind == TokenKind::Integer
    }
}

pub struct Questions;

impl Words for Questions {
    ghost kinds = { kinds.questions };

    #[tactic(auto, unfolding(stan_model_statements::specs::Kinds::same_kind))]
    fn include(kind: TokenKind) -> bool {
        kind == TokenKind::Question
    }
}

pub struct Statics;

impl Words for Statics {
    ghost kinds = { kinds.statics };

    #[tactic(auto, unfolding(stan_model_statements::specs::Kinds::same_kind))]
    fn include(kind: TokenKind) -> bool {
        kind == TokenKind::Static
    }
}
