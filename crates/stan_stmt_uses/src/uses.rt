//! What a `use` brings: names, which may have an alias.

ghost use Rattle.std.specs.Prelude.{◌≡◌, ◌<◌, IfOk, refl};
ghost use Rattle.stan_model_grammar.specs.declared.token.TokenKind.TheVariants as kinds;
ghost use Rattle.stan_model_statements.specs.Symbols as sorts;
ghost use Rattle.stan_places.specs.Gives.{Gives, at};
ghost use Rattle.stan_stmt_parts.specs.Gives as spec;
ghost use Rattle.stan_stmt_uses.specs.Views as views;

use stan_model_grammar::token::{Token, TokenKind};
use stan_places::places::kind_at;
use stan_places::stop::Stop;
use stan_stmt_ahead::kinds::is_name;
use stan_stmt_items::forms::{MarkedPart, MarkedPartForm};
use stan_stmt_items::words::UseAlias;
use stan_stmt_parts::depth::{Depth, enter};
use stan_stmt_parts::parser::{Parser, Part, Reader};
use stan_stmt_parts::words::Names;
use stan_stmt_trees::Used;

/// A name with its alias, behind what it brings.
#[tactic(auto, using(stan_stmt_parts::proofs::Singles::part_enters, crate::proofs::ItemLemmas::aliased), unfolding(stan_stmt_parts::specs::Gives::entered, stan_stmt_parts::specs::Gives::inside, stan_stmt_parts::specs::Parse::first_at, stan_model_statements::specs::Kinds::same_kind))]
pub fn read_item<R: Reader>(
    parser: &Parser<'_, R>,
    depth: Depth,
    kind: Option<Token>,
    place: usize,
) -> Result<(Used, usize), Stop>
    requires room { depth.room < R.room parser.now.reader }
    requires ready { R.ready parser.now.reader }
    ensures read { Gives (at views.name_piece) result (spec.part parser.now.tokens.now (R.leaves parser.now.reader) depth sorts.UseItem place) }
    ensures kind { IfOk result (λ x. x.0.kind ≡ kind) }
{
    let depth = enter(depth, 0)?;
    let (name, to) = parser.word::<Names>(place)?;
    let (alias, to) = parser.maybe::<UseAlias>(depth, to)?;
    Ok((Used { kind, name, alias }, to))
}

/// A name with its alias.
pub struct UseItem;

impl Part for UseItem {
    type Tree = Used;

    ghost sort = { sorts.UseItem };

    ghost view = { views.item_piece };

    #[tactic(auto, unfolding(stan_stmt_rules::specs::Ahead::pick_at, stan_model_statements::specs::Kinds::same_kind))]
    fn begins(tokens: &[Token], place: usize) -> bool {
        is_name(kind_at(tokens, place))
    }

    #[tactic(auto, using(crate::proofs::ItemLemmas::kindless))]
    fn read<R: Reader>(
        parser: &Parser<'_, R>,
        depth: Depth,
        place: usize,
    ) -> Result<(Used, usize), Stop> {
        let (item, to) = read_item(parser, depth, None, place)?;
        Ok((item, to))
    }
}

/// A further name of a list.
pub type FurtherUseItem = MarkedPart<FurtherUseItemForm>;

pub struct FurtherUseItemForm;

impl MarkedPartForm for FurtherUseItemForm {
    type Inner = UseItem;

    ghost sort = { sorts.FurtherUseItem };

    ghost mark = { kinds.Comma };

    ghost form = { record { picked = λ a b c d. refl; made_of = refl; weighs = refl; firstless = refl } };

    fn mark() -> TokenKind {
        TokenKind::Comma
    }
}
