//! Methods.

ghost use Rattle.std.specs.Prelude.{◌≤◌};
ghost use Rattle.stan_model_statements.specs.Rules as rules;
ghost use Rattle.stan_model_statements.specs.Symbols as sorts;
ghost use Rattle.stan_places.specs.Gives.{Gives, at};
ghost use Rattle.stan_stmt_members.specs.Views as views;
ghost use Rattle.stan_stmt_parts.specs.Gives as spec;

use crate::parameter_lists::ParameterList;
use sqlite_items::Items;
use stan_model_grammar::token::{Token, TokenKind};
use stan_places::stop::Stop;
use stan_stmt_items::words::ByReference;
use stan_stmt_lists::blocks::Block;
use stan_stmt_parts::depth::{Depth, enter};
use stan_stmt_parts::parser::{Parser, Part, Reader, stands};
use stan_stmt_parts::words::MemberNames;
use stan_stmt_trees::{Parameter as ParameterTree, Stmt};
use stan_stmt_types::types::ReturnType;
use stan_syntax::TypeTree;

// Statements in braces.
#[tactic(auto, unfolding(stan_stmt_parts::specs::Gives::entered, stan_stmt_parts::specs::Gives::inside, stan_stmt_parts::specs::Parse::first_at))]
fn block_body<R: Reader>(
    parser: &Parser<'_, R>,
    depth: Depth,
    place: usize,
) -> Result<(Option<Items<Stmt>>, usize), Stop>
    requires room { depth.room ≤ R.room parser.now.reader }
    requires ready { R.ready parser.now.reader }
    ensures { Gives (at views.body_piece) result (spec.entered parser.now.tokens.now (R.leaves parser.now.reader) depth rules.block_body place) }
{
    let depth = enter(depth, 0)?;
    let (statements, to) = Block::read(parser, depth, place)?;
    Ok((Some(statements), to))
}

// A `;` in place of a body.
#[tactic(auto, unfolding(stan_stmt_parts::specs::Gives::entered, stan_stmt_parts::specs::Gives::inside, stan_stmt_parts::specs::Parse::first_at))]
fn no_body<R: Reader>(
    parser: &Parser<'_, R>,
    depth: Depth,
    place: usize,
) -> Result<(Option<Items<Stmt>>, usize), Stop>
    ensures { Gives (at views.body_piece) result (spec.entered parser.now.tokens.now (R.leaves parser.now.reader) depth rules.no_body place) }
{
    let _depth = enter(depth, 0)?;
    let to = parser.expect(TokenKind::Semicolon, place)?;
    Ok((None, to))
}

/// The body of a method, or a `;` where it has none.
pub struct MethodBody;

impl Part for MethodBody {
    type Tree = Option<Items<Stmt>>;

    ghost sort = { sorts.MethodBody };

    ghost view = { views.body_piece };

    #[tactic(auto, unfolding(stan_stmt_rules::specs::Ahead::pick_at, stan_model_statements::specs::Kinds::same_kind))]
    fn begins(tokens: &[Token], place: usize) -> bool {
        stands(tokens, TokenKind::LeftBrace, place) || stands(tokens, TokenKind::Semicolon, place)
    }

    #[tactic(auto, using(stan_stmt_parts::proofs::Turns::part_picked), unfolding(stan_stmt_rules::specs::Ahead::pick_at, stan_model_statements::specs::Kinds::same_kind))]
    fn read<R: Reader>(
        parser: &Parser<'_, R>,
        depth: Depth,
        place: usize,
    ) -> Result<(Option<Items<Stmt>>, usize), Stop> {
        if stands(parser.tokens, TokenKind::LeftBrace, place) {
            return block_body(parser, depth, place);
        }
        if stands(parser.tokens, TokenKind::Semicolon, place) {
            return no_body(parser, depth, place);
        }
        Err(Stop::Absent)
    }
}

/// A method without its modifiers.
#[derive(Drop)]
pub struct MethodTree {
    pub by_reference: bool,
    pub name: Token,
    pub parameters: Items<ParameterTree>,
    /// Whether a `,` stands behind the last parameter.
    pub comma: bool,
    pub result: Option<TypeTree>,
    pub body: Option<Items<Stmt>>,
}

/// A method.
pub struct Method;

impl Part for Method {
    type Tree = MethodTree;

    ghost sort = { sorts.Method };

    ghost view = { views.method_piece };

    #[tactic(auto, unfolding(stan_stmt_rules::specs::Ahead::pick_at, stan_model_statements::specs::Kinds::same_kind))]
    fn begins(tokens: &[Token], place: usize) -> bool {
        stands(tokens, TokenKind::Function, place)
    }

    #[tactic(auto, using(stan_stmt_parts::proofs::Singles::part_enters, crate::proofs::MethodLemmas::method_parts), unfolding(stan_stmt_parts::specs::Gives::entered, stan_stmt_parts::specs::Gives::inside, stan_stmt_parts::specs::Parse::first_at, stan_model_statements::specs::Kinds::same_kind))]
    fn read<R: Reader>(
        parser: &Parser<'_, R>,
        depth: Depth,
        place: usize,
    ) -> Result<(MethodTree, usize), Stop> {
        let depth = enter(depth, 0)?;
        let to = parser.expect(TokenKind::Function, place)?;
        let (reference, to) = parser.maybe::<ByReference>(depth, to)?;
        let (name, to) = parser.word::<MemberNames>(to)?;
        let ((parameters, comma), to) = ParameterList::read(parser, depth, to)?;
        let (result, to) = parser.maybe::<ReturnType>(depth, to)?;
        let (body, to) = MethodBody::read(parser, depth, to)?;
        let method = MethodTree {
            by_reference: reference.is_some(),
            name,
            parameters,
            comma,
            result,
            body,
        };
        Ok((method, to))
    }
}
