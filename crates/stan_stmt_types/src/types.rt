//! The types of parameters and results.

ghost use Rattle.std.specs.Prelude.{◌≡◌, ◌<◌, ◌≤◌, refl};
ghost use Rattle.stan_model_grammar.specs.declared.token.TokenKind.TheVariants as kinds;
ghost use Rattle.stan_model_statements.specs.Rules as rules;
ghost use Rattle.stan_model_statements.specs.Symbols as sorts;
ghost use Rattle.stan_places.specs.Gives.{Gives, at};
ghost use Rattle.stan_stmt_parts.specs.Gives as spec;
ghost use Rattle.stan_stmt_types.specs.Views as views;

use stan_model_grammar::token::{Token, TokenKind};
use stan_places::places::kind_at;
use stan_places::stop::Stop;
use stan_stmt_ahead::kinds::is_type_name;
use stan_stmt_items::forms::{MarkedPart, MarkedPartForm};
use stan_stmt_items::words::FurtherType;
use stan_stmt_parts::depth::{Depth, enter};
use stan_stmt_parts::parser::{Parser, Part, Reader, stands};
use stan_stmt_parts::words::{Questions, TypeNames};
use stan_syntax::TypeTree;

/// A type: `?` and a name, or names with `|` between them.
pub struct WrittenType;

impl Part for WrittenType {
    type Tree = TypeTree;

    ghost sort = { sorts.WrittenType };

    ghost view = { views.type_piece };

    #[tactic(auto, unfolding(stan_stmt_rules::specs::Ahead::pick_at, stan_model_statements::specs::Kinds::same_kind))]
    fn begins(tokens: &[Token], place: usize) -> bool {
        match kind_at(tokens, place) {
            TokenKind::Question => true,
            kind => is_type_name(kind),
        }
    }

    #[tactic(auto, using(stan_stmt_parts::proofs::Turns::part_picked), unfolding(stan_stmt_rules::specs::Ahead::pick_at, stan_model_statements::specs::Kinds::same_kind))]
    fn read<R: Reader>(
        parser: &Parser<'_, R>,
        depth: Depth,
        place: usize,
    ) -> Result<(TypeTree, usize), Stop> {
        if stands(parser.tokens, TokenKind::Question, place) {
            return nullable_type(parser, depth, place);
        }
        if !is_type_name(kind_at(parser.tokens, place)) {
            return Err(Stop::Absent);
        }
        union_type(parser, depth, place)
    }
}

/// `?` and a name.
#[tactic(auto, unfolding(stan_stmt_parts::specs::Gives::entered, stan_stmt_parts::specs::Gives::inside, stan_stmt_parts::specs::Parse::first_at, crate::specs::Views::type_piece))]
fn nullable_type<R: Reader>(
    parser: &Parser<'_, R>,
    depth: Depth,
    place: usize,
) -> Result<(TypeTree, usize), Stop>
    ensures { Gives (at views.type_piece) result (spec.entered parser.now.tokens.now (R.leaves parser.now.reader) depth rules.nullable_type place) }
{
    let _depth = enter(depth, 0)?;
    let (question, to) = parser.word::<Questions>(place)?;
    let (name, to) = parser.word::<TypeNames>(to)?;
    Ok((TypeTree::Nullable(question, name), to))
}

/// Names with `|` between them.
#[tactic(auto, using(stan_stmt_items::proofs::Layers::further_are), unfolding(stan_stmt_parts::specs::Gives::entered, stan_stmt_parts::specs::Gives::inside, stan_stmt_parts::specs::Parse::first_at, crate::specs::Views::type_piece))]
fn union_type<R: Reader>(
    parser: &Parser<'_, R>,
    depth: Depth,
    place: usize,
) -> Result<(TypeTree, usize), Stop>
    requires room { depth.room ≤ R.room parser.now.reader }
    requires ready { R.ready parser.now.reader }
    ensures { Gives (at views.type_piece) result (spec.entered parser.now.tokens.now (R.leaves parser.now.reader) depth rules.union_type place) }
{
    let depth = enter(depth, 0)?;
    let (name, to) = parser.word::<TypeNames>(place)?;
    let (more, to) = parser.all::<FurtherType>(depth, to)?;
    Ok((TypeTree::Union(name, more), to))
}

/// The type of a result, behind a `:`.
pub type ReturnType = MarkedPart<ReturnTypeForm>;

pub struct ReturnTypeForm;

impl MarkedPartForm for ReturnTypeForm {
    type Inner = WrittenType;

    ghost sort = { sorts.ReturnType };

    ghost mark = { kinds.Colon };

    ghost form = { record { picked = λ a b c d. refl; made_of = refl; weighs = refl; firstless = refl } };

    fn mark() -> TokenKind {
        TokenKind::Colon
    }
}
