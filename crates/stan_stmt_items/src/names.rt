//! Lists of names.

ghost use Rattle.std.specs.Prelude.{◌≡◌, ◌∷◌, IfOk, refl};
ghost use Rattle.stan_model_grammar.specs.declared.token.TokenKind.TheVariants as kinds;
ghost use Rattle.stan_model_statements.specs.Symbols as sorts;
ghost use Rattle.stan_stmt_items.specs.Views as views;

use crate::forms::{MarkedPart, MarkedPartForm};
use crate::words::FurtherName;
use sqlite_items::Items;
use stan_model_grammar::token::{Token, TokenKind};
use stan_places::places::kind_at;
use stan_places::stop::Stop;
use stan_stmt_ahead::kinds::is_name;
use stan_stmt_parts::depth::{Depth, enter};
use stan_stmt_parts::parser::{Parser, Part, Reader, with_first};
use stan_stmt_parts::words::Names as NameWords;
use std::alloc::{AllocError, Global};

/// Names of classes: the first, and those behind it.
pub struct Names;

impl Part for Names {
    type Tree = (Token, Items<Token>);

    ghost sort = { sorts.Names };

    ghost view = { λ x. views.names_of (x.0 ∷ x.1) };

    #[tactic(auto, unfolding(stan_stmt_rules::specs::Ahead::pick_at, stan_model_statements::specs::Kinds::same_kind))]
    fn begins(tokens: &[Token], place: usize) -> bool {
        is_name(kind_at(tokens, place))
    }

    #[tactic(auto, using(stan_stmt_parts::proofs::Singles::part_enters, crate::proofs::Layers::further_are), unfolding(stan_stmt_parts::specs::Gives::entered, stan_stmt_parts::specs::Gives::inside, stan_stmt_parts::specs::Parse::first_at, stan_model_statements::specs::Kinds::same_kind))]
    fn read<R: Reader>(
        parser: &Parser<'_, R>,
        depth: Depth,
        place: usize,
    ) -> Result<((Token, Items<Token>), usize), Stop> {
        let depth = enter(depth, 0)?;
        let (first, to) = parser.word::<NameWords>(place)?;
        let (more, to) = parser.all::<FurtherName>(depth, to)?;
        Ok(((first, more), to))
    }
}

/// All of the names, if there are any.
pub fn all_names(
    alloc: Global,
    found: Option<(Token, Items<Token>)>,
) -> Result<Items<Token>, AllocError>
    ensures { IfOk result (λ ts. ts ≡ views.all_names found) }
{
    match found {
        None => Ok(Items::new(alloc)),
        Some((first, more)) => with_first(alloc, first, more),
    }
}

/// The interfaces that a class implements.
pub type Implements = MarkedPart<ImplementsForm>;

pub struct ImplementsForm;

impl MarkedPartForm for ImplementsForm {
    type Inner = Names;

    ghost sort = { sorts.Implements };

    ghost mark = { kinds.Implements };

    ghost form = { record { picked = λ a b c d. refl; made_of = refl; weighs = refl; firstless = refl } };

    fn mark() -> TokenKind {
        TokenKind::Implements
    }
}

/// The interfaces that an interface extends.
pub type InterfaceExtends = MarkedPart<InterfaceExtendsForm>;

pub struct InterfaceExtendsForm;

impl MarkedPartForm for InterfaceExtendsForm {
    type Inner = Names;

    ghost sort = { sorts.InterfaceExtends };

    ghost mark = { kinds.Extends };

    ghost form = { record { picked = λ a b c d. refl; made_of = refl; weighs = refl; firstless = refl } };

    fn mark() -> TokenKind {
        TokenKind::Extends
    }
}
