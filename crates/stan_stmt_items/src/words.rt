//! Parts of one mark or one word, and words behind a mark.

ghost use Rattle.std.specs.Prelude.{refl};
ghost use Rattle.stan_model_grammar.specs.declared.token.TokenKind.TheVariants as kinds;
ghost use Rattle.stan_model_statements.specs.Symbols as sorts;

use crate::forms::{MarkForm, MarkedWord, MarkedWordForm, OneMark, OneWord, WordForm};
use stan_model_grammar::token::TokenKind;
use stan_stmt_parts::words::{
    ClassModifiers, Identifiers, Integers, Names as NameWords, TypeNames, UseKinds, Variables,
    Visibilities,
};

/// The `&` before what is passed or given by reference.
pub type ByReference = OneMark<ByReferenceForm>;

pub struct ByReferenceForm;

impl MarkForm for ByReferenceForm {
    ghost sort = { sorts.ByReference };

    ghost mark = { kinds.Ampersand };

    ghost form = { record { picked = λ a b c d. refl; made_of = refl; weighs = refl; firstless = refl } };

    fn mark() -> TokenKind {
        TokenKind::Ampersand
    }
}

/// The `...` before a parameter.
pub type Variadic = OneMark<VariadicForm>;

pub struct VariadicForm;

impl MarkForm for VariadicForm {
    ghost sort = { sorts.Variadic };

    ghost mark = { kinds.Ellipsis };

    ghost form = { record { picked = λ a b c d. refl; made_of = refl; weighs = refl; firstless = refl } };

    fn mark() -> TokenKind {
        TokenKind::Ellipsis
    }
}

/// The name of a namespace.
pub type NamespaceName = OneWord<NamespaceNameForm>;

pub struct NamespaceNameForm;

impl WordForm for NamespaceNameForm {
    type Words = NameWords;

    ghost sort = { sorts.NamespaceName };

    ghost form = { record { picked = λ a b c d. refl; made_of = refl; weighs = refl; firstless = refl } };
}

/// What a `use` brings, besides classes: `function` or `const`.
pub type UseKind = OneWord<UseKindForm>;

pub struct UseKindForm;

impl WordForm for UseKindForm {
    type Words = UseKinds;

    ghost sort = { sorts.UseKind };

    ghost form = { record { picked = λ a b c d. refl; made_of = refl; weighs = refl; firstless = refl } };
}

/// The number behind `break` or `continue`.
pub type Levels = OneWord<LevelsForm>;

pub struct LevelsForm;

impl WordForm for LevelsForm {
    type Words = Integers;

    ghost sort = { sorts.Levels };

    ghost form = { record { picked = λ a b c d. refl; made_of = refl; weighs = refl; firstless = refl } };
}

/// The variable of a `catch`.
pub type CatchVariable = OneWord<CatchVariableForm>;

pub struct CatchVariableForm;

impl WordForm for CatchVariableForm {
    type Words = Variables;

    ghost sort = { sorts.CatchVariable };

    ghost form = { record { picked = λ a b c d. refl; made_of = refl; weighs = refl; firstless = refl } };
}

/// `public`, `protected` or `private` before a parameter.
pub type Visibility = OneWord<VisibilityForm>;

pub struct VisibilityForm;

impl WordForm for VisibilityForm {
    type Words = Visibilities;

    ghost sort = { sorts.Visibility };

    ghost form = { record { picked = λ a b c d. refl; made_of = refl; weighs = refl; firstless = refl } };
}

/// `abstract` or `final` before a class.
pub type ClassModifier = OneWord<ClassModifierForm>;

pub struct ClassModifierForm;

impl WordForm for ClassModifierForm {
    type Words = ClassModifiers;

    ghost sort = { sorts.ClassModifier };

    ghost form = { record { picked = λ a b c d. refl; made_of = refl; weighs = refl; firstless = refl } };
}

/// The name behind `as` in a `use`.
pub type UseAlias = MarkedWord<UseAliasForm>;

pub struct UseAliasForm;

impl MarkedWordForm for UseAliasForm {
    type Words = Identifiers;

    ghost sort = { sorts.UseAlias };

    ghost mark = { kinds.As };

    ghost form = { record { picked = λ a b c d. refl; made_of = refl; weighs = refl; firstless = refl } };

    fn mark() -> TokenKind {
        TokenKind::As
    }
}

/// The class that a class extends.
pub type Extends = MarkedWord<ExtendsForm>;

pub struct ExtendsForm;

impl MarkedWordForm for ExtendsForm {
    type Words = NameWords;

    ghost sort = { sorts.Extends };

    ghost mark = { kinds.Extends };

    ghost form = { record { picked = λ a b c d. refl; made_of = refl; weighs = refl; firstless = refl } };

    fn mark() -> TokenKind {
        TokenKind::Extends
    }
}

/// A further class of a `catch`.
pub type FurtherClass = MarkedWord<FurtherClassForm>;

pub struct FurtherClassForm;

impl MarkedWordForm for FurtherClassForm {
    type Words = NameWords;

    ghost sort = { sorts.FurtherClass };

    ghost mark = { kinds.Bar };

    ghost form = { record { picked = λ a b c d. refl; made_of = refl; weighs = refl; firstless = refl } };

    fn mark() -> TokenKind {
        TokenKind::Bar
    }
}

/// A further variable of a `global`.
pub type FurtherGlobal = MarkedWord<FurtherGlobalForm>;

pub struct FurtherGlobalForm;

impl MarkedWordForm for FurtherGlobalForm {
    type Words = Variables;

    ghost sort = { sorts.FurtherGlobal };

    ghost mark = { kinds.Comma };

    ghost form = { record { picked = λ a b c d. refl; made_of = refl; weighs = refl; firstless = refl } };

    fn mark() -> TokenKind {
        TokenKind::Comma
    }
}

/// A further name of a type.
pub type FurtherType = MarkedWord<FurtherTypeForm>;

pub struct FurtherTypeForm;

impl MarkedWordForm for FurtherTypeForm {
    type Words = TypeNames;

    ghost sort = { sorts.FurtherType };

    ghost mark = { kinds.Bar };

    ghost form = { record { picked = λ a b c d. refl; made_of = refl; weighs = refl; firstless = refl } };

    fn mark() -> TokenKind {
        TokenKind::Bar
    }
}

/// A further name of a list.
pub type FurtherName = MarkedWord<FurtherNameForm>;

pub struct FurtherNameForm;

impl MarkedWordForm for FurtherNameForm {
    type Words = NameWords;

    ghost sort = { sorts.FurtherName };

    ghost mark = { kinds.Comma };

    ghost form = { record { picked = λ a b c d. refl; made_of = refl; weighs = refl; firstless = refl } };

    fn mark() -> TokenKind {
        TokenKind::Comma
    }
}
