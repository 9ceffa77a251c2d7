//! Whether an `exit` ends the program.

ghost use Rattle.std.specs.Prelude.{◌≡◌, ◌&&◌, Bool, not, map, option_map};
ghost use Rattle.stan_model_grammar.specs.Trees as model;
ghost use Rattle.stan_model_grammar.specs.TreeLists.{may_be_called};
ghost use Rattle.stan_syntax.specs.Exit as spec;
ghost use Rattle.stan_syntax.specs.Tree.{argument_of, arguments_of};

use crate::tree::{Argument, Arguments};

fn is_positional(argument: &Argument) -> bool
    ensures { result ≡ spec.is_positional (argument_of argument.now) }
{
    match argument {
        Argument::Positional(_) => true,
        Argument::Spread(_) => false,
        Argument::Named(..) => false,
    }
}

fn is_plain_item(argument: &Argument, comma: bool) -> bool
    ensures { result ≡ (not comma && spec.is_positional (argument_of argument.now)) }
{
    !comma && is_positional(argument)
}

/// Nothing, or one plain value without a `,` behind it.
fn is_plain(list: &[Argument], comma: bool) -> bool
    ensures { result ≡ spec.is_plain (map argument_of list.now) comma }
{
    match list.first() {
        None => true,
        Some(argument) => {
            if list.len() == 1 {
                is_plain_item(argument, comma)
            } else {
                false
            }
        }
    }
}

/// Whether an `exit` or `die` with these arguments ends the program: it has none, or one plain value. Else it is a call.
pub fn ends_program(arguments: &Option<Arguments>) -> bool
    ensures exact { result ≡ model.ends_program (may_be_called (option_map arguments_of arguments.now)) }
{
    match arguments {
        None => true,
        Some(arguments) => is_plain(arguments.list.as_slice(), arguments.comma),
    }
}
