//! Operands and the operators between them, stratum by stratum.

ghost use Rattle.std.specs.Prelude.{◌-◌};
ghost use Rattle.stan_places.specs.Gives.{Gives, at};
ghost use Rattle.stan_expr_items.specs.Nests.{Nests};
ghost use Rattle.stan_expr_rules.specs.Parse as parse;
ghost use Rattle.stan_syntax.specs.Tree.{tree_of};

use crate::operands::operand;
use stan_expr_items::grammar::Grammar;
use stan_expr_operators::at_stratum;
use stan_model_grammar::token::Token;
use stan_places::places::joins_at;
use stan_places::stop::Stop;
use stan_places::strata::OPERAND;
use stan_syntax::Expr;
use std::alloc::Global;

/// An operand, and the operators behind it up to this stratum. The token behind what is read tells the stratum in which it goes on, so
/// those between are passed over.
#[tactic(auto, unfolding(stan_expr_rules::specs::Parse::strata))]
pub fn strata<F: Fn(Global, &[Token], u32, bool, u8, usize) -> Result<(Expr, usize), Stop>>(
    grammar: &Grammar<'_, F>,
    pattern: bool,
    stratum: u8,
    place: usize,
) -> Result<(Expr, usize), Stop>
    requires { Nests grammar.now.depth (F.pre grammar.now.read) (F.post grammar.now.read) }
    ensures { Gives (at tree_of) result (parse.strata grammar.now.tokens.now (parse.below grammar.now.tokens.now grammar.now.depth) pattern (stratum - 5) place) }
{
    let (mut left, mut to) = operand(grammar, pattern, place)?;
    let mut done = OPERAND;
    while done < stratum {
        let next = joins_at(grammar.tokens, to);
        if next <= done || stratum < next {
            return Ok((left, to));
        }
        let (e, end) = at_stratum(grammar, next, left, to)?;
        left = e;
        to = end;
        done = next;
    }
    Ok((left, to))
}
