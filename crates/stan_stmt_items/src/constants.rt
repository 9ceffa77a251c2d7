//! Variables and constants, with their values.

ghost use Rattle.std.specs.Prelude.{refl};
ghost use Rattle.stan_model_grammar.specs.declared.token.TokenKind.TheVariants as kinds;
ghost use Rattle.stan_model_statements.specs.Symbols as sorts;
ghost use Rattle.stan_stmt_items.specs.Views as views;

use crate::forms::{
    MarkedPart, MarkedPartForm, MarkedValue, MarkedValueForm, NamedValue, NamedValueForm,
};
use stan_model_grammar::token::{Token, TokenKind};
use stan_places::stop::Stop;
use stan_stmt_parts::depth::{Depth, enter};
use stan_stmt_parts::parser::{Parser, Part, Reader, stands};
use stan_stmt_parts::words::{Identifiers, MemberNames, Variables};
use stan_stmt_trees::Variable;

/// A further value of a list.
pub type FurtherExpression = MarkedValue<FurtherExpressionForm>;

pub struct FurtherExpressionForm;

impl MarkedValueForm for FurtherExpressionForm {
    ghost sort = { sorts.FurtherExpression };

    ghost mark = { kinds.Comma };

    ghost form = { record { picked = λ a b c d. refl; made_of = refl; weighs = refl; firstless = refl } };

    fn mark() -> TokenKind {
        TokenKind::Comma
    }
}

/// The value behind a `=`.
pub type Default = MarkedValue<DefaultForm>;

pub struct DefaultForm;

impl MarkedValueForm for DefaultForm {
    ghost sort = { sorts.Default };

    ghost mark = { kinds.Assign };

    ghost form = { record { picked = λ a b c d. refl; made_of = refl; weighs = refl; firstless = refl } };

    fn mark() -> TokenKind {
        TokenKind::Assign
    }
}

/// A variable, with its value.
pub struct Declared;

impl Part for Declared {
    type Tree = Variable;

    ghost sort = { sorts.Declared };

    ghost view = { views.declared_of };

    #[tactic(auto, unfolding(stan_stmt_rules::specs::Ahead::pick_at, stan_model_statements::specs::Kinds::same_kind))]
    fn begins(tokens: &[Token], place: usize) -> bool {
        stands(tokens, TokenKind::Variable, place)
    }

    #[tactic(auto, using(stan_stmt_parts::proofs::Singles::part_enters, crate::proofs::Layers::made), unfolding(stan_stmt_parts::specs::Gives::entered, stan_stmt_parts::specs::Gives::inside, stan_stmt_parts::specs::Parse::first_at, stan_model_statements::specs::Kinds::same_kind, crate::specs::Views::declared_of))]
    fn read<R: Reader>(
        parser: &Parser<'_, R>,
        depth: Depth,
        place: usize,
    ) -> Result<(Variable, usize), Stop> {
        let depth = enter(depth, 0)?;
        let (name, to) = parser.word::<Variables>(place)?;
        let (value, to) = parser.maybe::<Default>(depth, to)?;
        match value {
            None => Ok((Variable { name, value: None }, to)),
            Some(value) => {
                let value = Some(value);
                Ok((Variable { name, value }, to))
            }
        }
    }
}

/// A further variable.
pub type FurtherDeclared = MarkedPart<FurtherDeclaredForm>;

pub struct FurtherDeclaredForm;

impl MarkedPartForm for FurtherDeclaredForm {
    type Inner = Declared;

    ghost sort = { sorts.FurtherDeclared };

    ghost mark = { kinds.Comma };

    ghost form = { record { picked = λ a b c d. refl; made_of = refl; weighs = refl; firstless = refl } };

    fn mark() -> TokenKind {
        TokenKind::Comma
    }
}

/// A constant, with its value.
pub type Constant = NamedValue<ConstantForm>;

pub struct ConstantForm;

impl NamedValueForm for ConstantForm {
    type Words = Identifiers;

    ghost sort = { sorts.Constant };

    ghost form = { record { picked = λ a b c d. refl; made_of = refl; weighs = refl; firstless = refl } };
}

/// A further constant.
pub type FurtherConstant = MarkedPart<FurtherConstantForm>;

pub struct FurtherConstantForm;

impl MarkedPartForm for FurtherConstantForm {
    type Inner = Constant;

    ghost sort = { sorts.FurtherConstant };

    ghost mark = { kinds.Comma };

    ghost form = { record { picked = λ a b c d. refl; made_of = refl; weighs = refl; firstless = refl } };

    fn mark() -> TokenKind {
        TokenKind::Comma
    }
}

/// A constant of a class, with its value.
pub type ClassConstant = NamedValue<ClassConstantForm>;

pub struct ClassConstantForm;

impl NamedValueForm for ClassConstantForm {
    type Words = MemberNames;

    ghost sort = { sorts.ClassConstant };

    ghost form = { record { picked = λ a b c d. refl; made_of = refl; weighs = refl; firstless = refl } };
}

/// A further constant of a class.
pub type FurtherClassConstant = MarkedPart<FurtherClassConstantForm>;

pub struct FurtherClassConstantForm;

impl MarkedPartForm for FurtherClassConstantForm {
    type Inner = ClassConstant;

    ghost sort = { sorts.FurtherClassConstant };

    ghost mark = { kinds.Comma };

    ghost form = { record { picked = λ a b c d. refl; made_of = refl; weighs = refl; firstless = refl } };

    fn mark() -> TokenKind {
        TokenKind::Comma
    }
}
