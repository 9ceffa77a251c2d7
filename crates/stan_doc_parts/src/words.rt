//! Words by their kinds.

ghost use Rattle.std.specs.Prelude.{◌≡◌, List, [], ◌∷◌};
ghost use Rattle.stan_model_doc.specs.declared.token.DocKind.{DocKind};
ghost use Rattle.stan_model_doc.specs.declared.token.DocKind.TheVariants as k;
ghost use Rattle.stan_model_doc.specs.Rules as kinds;
ghost use Rattle.stan_model_doc.specs.Tokens.{has};

use stan_model_doc::token::DocKind;

/// Words of some kinds.
pub trait Words {
    ghost kinds: { List DocKind };

    fn include(kind: DocKind) -> bool
        ensures { result ≡ has kinds kind };
}

pub struct Identifiers;

impl Words for Identifiers {
    ghost kinds = { kinds.identifiers };

    #[tactic(auto, unfolding(stan_model_doc::specs::Tokens::same_kind))]
    fn include(kind: DocKind) -> bool {
        match kind {
            DocKind::Identifier => true,
            DocKind::Int => true,
            DocKind::Array => true,
            DocKind::Callable => true,
            DocKind::Static => true,
            DocKind::Closure => true,
            DocKind::Min => true,
            DocKind::Max => true,
            DocKind::Is => true,
            DocKind::Not => true,
            DocKind::Of => true,
            _ => false,
        }
    }
}

pub struct Names;

impl Words for Names {
    ghost kinds = { kinds.names };

    #[tactic(auto, unfolding(stan_model_doc::specs::Tokens::same_kind))]
    fn include(kind: DocKind) -> bool {
        kind == DocKind::Name || Identifiers::include(kind)
    }
}

/// What stands behind the `::` of a member.
pub struct Members;

impl Words for Members {
    ghost kinds = { k.Star ∷ kinds.identifiers };

    #[tactic(auto, unfolding(stan_model_doc::specs::Tokens::same_kind))]
    fn include(kind: DocKind) -> bool {
        kind == DocKind::Star || Identifiers::include(kind)
    }
}

/// What stands before the `:` of a field.
pub struct Keys;

impl Words for Keys {
    ghost kinds = { kinds.keys };

    #[tactic(auto, unfolding(stan_model_doc::specs::Tokens::same_kind))]
    fn include(kind: DocKind) -> bool {
        match kind {
            DocKind::Integer => true,
            DocKind::SingleQuoted => true,
            DocKind::DoubleQuoted => true,
            _ => Identifiers::include(kind),
        }
    }
}

pub struct Variables;

impl Words for Variables {
    ghost kinds = { kinds.variables };

    #[tactic(auto, unfolding(stan_model_doc::specs::Tokens::same_kind))]
    fn include(kind: DocKind) -> bool {
        match kind {
            DocKind::Variable => true,
            DocKind::This => true,
            _ => false,
        }
    }
}

pub struct Literals;

impl Words for Literals {
    ghost kinds = { kinds.literals };

    #[tactic(auto, unfolding(stan_model_doc::specs::Tokens::same_kind))]
    fn include(kind: DocKind) -> bool {
        match kind {
            DocKind::Integer => true,
            DocKind::Float => true,
            DocKind::SingleQuoted => true,
            DocKind::DoubleQuoted => true,
            _ => false,
        }
    }
}

/// The least number of a range.
pub struct Least;

impl Words for Least {
    ghost kinds = { k.Integer ∷ k.Min ∷ [] };

    #[tactic(auto, unfolding(stan_model_doc::specs::Tokens::same_kind))]
    fn include(kind: DocKind) -> bool {
        match kind {
            DocKind::Integer => true,
            DocKind::Min => true,
            _ => false,
        }
    }
}

/// The greatest number of a range.
pub struct Greatest;

impl Words for Greatest {
    ghost kinds = { k.Integer ∷ k.Max ∷ [] };

    #[tactic(auto, unfolding(stan_model_doc::specs::Tokens::same_kind))]
    fn include(kind: DocKind) -> bool {
        match kind {
            DocKind::Integer => true,
            DocKind::Max => true,
            _ => false,
        }
    }
}

pub struct Callables;

impl Words for Callables {
    ghost kinds = { k.Callable ∷ k.Closure ∷ [] };

    #[tactic(auto, unfolding(stan_model_doc::specs::Tokens::same_kind))]
    fn include(kind: DocKind) -> bool {
        match kind {
            DocKind::Callable => true,
            DocKind::Closure => true,
            _ => false,
        }
    }
}
