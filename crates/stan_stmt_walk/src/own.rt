//! Which name a statement itself holds, without its parts.

ghost use Rattle.std.specs.Prelude.{◌≡◌, ◌++◌, IfOk, map};
ghost use Rattle.stan_model_walk.specs.Findings.{of_form, placed};
ghost use Rattle.stan_expr_walk.specs.Found.{found_of};
ghost use Rattle.stan_stmt_trees.specs.Tree.{form_of};

use stan_base::OutOfMemory;
use stan_expr_walk::{Finding, Found, push};
use stan_stmt_trees::Form;

/// Puts the name that a statement declares, if it declares a function or a class, behind the others.
pub fn own_found(form: &Form, inner: bool, found: &mut Vec<Found>) -> Result<(), OutOfMemory>
    ensures { IfOk result (λ u. map found_of found.new.items ≡ map found_of found.old.items ++ placed inner (of_form (form_of form.now))) }
{
    match form {
        Form::Function { name, .. } => push(inner, Finding::DeclaresFunction(*name), found),
        Form::Class { name, .. } => push(inner, Finding::DeclaresClass(*name), found),
        Form::Interface { name, .. } => push(inner, Finding::DeclaresClass(*name), found),
        Form::Trait { name, .. } => push(inner, Finding::DeclaresClass(*name), found),
        Form::Block(_) => Ok(()),
        Form::Empty { .. } => Ok(()),
        Form::Expression { .. } => Ok(()),
        Form::Echo { .. } => Ok(()),
        Form::Return { .. } => Ok(()),
        Form::If { .. } => Ok(()),
        Form::While { .. } => Ok(()),
        Form::Do { .. } => Ok(()),
        Form::For { .. } => Ok(()),
        Form::ForEach { .. } => Ok(()),
        Form::Switch { .. } => Ok(()),
        Form::Break { .. } => Ok(()),
        Form::Continue { .. } => Ok(()),
        Form::Try { .. } => Ok(()),
        Form::Unset { .. } => Ok(()),
        Form::Global { .. } => Ok(()),
        Form::Static { .. } => Ok(()),
        Form::Const { .. } => Ok(()),
        Form::Declare { .. } => Ok(()),
    }
}
