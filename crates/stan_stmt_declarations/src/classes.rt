//! Classes, interfaces and traits.

ghost use Rattle.std.specs.Prelude.{◌≤◌};
ghost use Rattle.stan_model_statements.specs.Rules as rules;
ghost use Rattle.stan_places.specs.Gives.{Gives, at};
ghost use Rattle.stan_stmt_parts.specs.Gives as spec;

use stan_model_grammar::token::TokenKind;
use stan_places::places::token_at;
use stan_places::stop::Stop;
use stan_stmt_items::names::{Implements, InterfaceExtends, all_names};
use stan_stmt_items::words::{ClassModifier, Extends};
use stan_stmt_members::bodies::ClassBody;
use stan_stmt_parts::depth::{Depth, enter};
use stan_stmt_parts::parser::{Parser, Part, Reader};
use stan_stmt_parts::words::Identifiers;
use stan_stmt_trees::{Form, Stmt};

/// A class, with its modifiers.
#[tactic(auto, using(crate::proofs::FormLemmas::class_is, crate::proofs::TokenLemmas::no_modifier, crate::proofs::TokenLemmas::no_mark), unfolding(stan_stmt_parts::specs::Gives::entered, stan_stmt_parts::specs::Gives::inside, stan_stmt_parts::specs::Parse::first_at, stan_model_statements::specs::Kinds::same_kind))]
pub fn class_statement<R: Reader>(
    parser: &Parser<'_, R>,
    depth: Depth,
    place: usize,
) -> Result<(Stmt, usize), Stop>
    requires room { depth.room ≤ R.room parser.now.reader }
    requires ready { R.ready parser.now.reader }
    ensures { Gives (at spec.statement_piece) result (spec.entered parser.now.tokens.now (R.leaves parser.now.reader) depth rules.class_statement place) }
{
    let depth = enter(depth, 0)?;
    let Some(first) = token_at(parser.tokens, place) else {
        return Err(Stop::Absent);
    };
    let (modifiers, to) = parser.all::<ClassModifier>(depth, place)?;
    let to = parser.expect(TokenKind::Class, to)?;
    let (name, to) = parser.word::<Identifiers>(to)?;
    let (parent, to) = parser.maybe::<Extends>(depth, to)?;
    let (found, to) = parser.maybe::<Implements>(depth, to)?;
    let (members, to) = ClassBody::read(parser, depth, to)?;
    let interfaces = all_names(parser.alloc, found)?;
    let form = Form::Class {
        modifiers,
        name,
        parent,
        interfaces,
        members,
    };
    Ok((Stmt { first, form }, to))
}

/// An interface.
#[tactic(auto, using(crate::proofs::FormLemmas::interface_is), unfolding(stan_stmt_parts::specs::Gives::entered, stan_stmt_parts::specs::Gives::inside, stan_stmt_parts::specs::Parse::first_at, stan_model_statements::specs::Kinds::same_kind))]
pub fn interface_statement<R: Reader>(
    parser: &Parser<'_, R>,
    depth: Depth,
    place: usize,
) -> Result<(Stmt, usize), Stop>
    requires room { depth.room ≤ R.room parser.now.reader }
    requires ready { R.ready parser.now.reader }
    ensures { Gives (at spec.statement_piece) result (spec.entered parser.now.tokens.now (R.leaves parser.now.reader) depth rules.interface_statement place) }
{
    let depth = enter(depth, 0)?;
    let (first, to) = parser.keyword(TokenKind::Interface, place)?;
    let (name, to) = parser.word::<Identifiers>(to)?;
    let (found, to) = parser.maybe::<InterfaceExtends>(depth, to)?;
    let (members, to) = ClassBody::read(parser, depth, to)?;
    let parents = all_names(parser.alloc, found)?;
    let form = Form::Interface {
        name,
        parents,
        members,
    };
    Ok((Stmt { first, form }, to))
}

/// A trait.
#[tactic(auto, using(crate::proofs::FormLemmas::trait_is), unfolding(stan_stmt_parts::specs::Gives::entered, stan_stmt_parts::specs::Gives::inside, stan_stmt_parts::specs::Parse::first_at, stan_model_statements::specs::Kinds::same_kind))]
pub fn trait_statement<R: Reader>(
    parser: &Parser<'_, R>,
    depth: Depth,
    place: usize,
) -> Result<(Stmt, usize), Stop>
    requires room { depth.room ≤ R.room parser.now.reader }
    requires ready { R.ready parser.now.reader }
    ensures { Gives (at spec.statement_piece) result (spec.entered parser.now.tokens.now (R.leaves parser.now.reader) depth rules.trait_statement place) }
{
    let depth = enter(depth, 0)?;
    let (first, to) = parser.keyword(TokenKind::Trait, place)?;
    let (name, to) = parser.word::<Identifiers>(to)?;
    let (members, to) = ClassBody::read(parser, depth, to)?;
    let form = Form::Trait { name, members };
    Ok((Stmt { first, form }, to))
}
