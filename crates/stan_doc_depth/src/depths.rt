//! The depth of a type, by the depths of its parts. It takes no memory.

ghost use Rattle.std.specs.Prelude.{◌≡◌, ◌^◌, ◌-◌, min};
ghost use Rattle.stan_doc_depth.specs.Depths.{piece_depth};
ghost use Rattle.stan_doc_trees.specs.Tree.{atom_of, field_of, intersection_of, unary_of, written_of};
ghost use Rattle.stan_syntax.specs.Depth.{greatest};

use stan_doc_trees::{Atom, Field, Intersection, Unary, Written};

/// How deep a type is, at most `u32::MAX`.
#[cycle(depths)]
pub fn written_depth(written: &Written) -> u32
    ensures { result ≡ min (piece_depth (written_of written.now)) (2 ^ 32 - 1) }
{
    match written {
        Written::Conditional {
            tested,
            then,
            otherwise,
            ..
        } => {
            let branches = written_depth(then.get()).max(written_depth(otherwise.get()));
            written_depth(tested.get()).max(branches).saturating_add(1)
        }
        Written::Union(types) => intersections_depth(types.as_slice()),
    }
}

#[cycle(depths)]
fn writtens_depth(types: &[Written]) -> u32
    ensures { result ≡ min (greatest (λ x. piece_depth (written_of x)) types.now) (2 ^ 32 - 1) }
{
    let mut most = 0;
    for written in types {
        most = written_depth(written).max(most);
    }
    most
}

#[cycle(depths)]
fn intersections_depth(types: &[Intersection]) -> u32
    ensures { result ≡ min (greatest (λ x. piece_depth (intersection_of x)) types.now) (2 ^ 32 - 1) }
{
    let mut most = 0;
    for intersection in types {
        most = intersection_depth(intersection).max(most);
    }
    most
}

/// How deep the deepest of these types is, at most `u32::MAX`.
#[cycle(depths)]
pub fn intersection_depth(intersection: &Intersection) -> u32
    ensures { result ≡ min (piece_depth (intersection_of intersection.now)) (2 ^ 32 - 1) }
{
    unaries_depth(intersection.types.as_slice())
}

#[cycle(depths)]
fn unaries_depth(types: &[Unary]) -> u32
    ensures { result ≡ min (greatest (λ x. piece_depth (unary_of x)) types.now) (2 ^ 32 - 1) }
{
    let mut most = 0;
    for unary in types {
        most = unary_depth(unary).max(most);
    }
    most
}

/// How deep a type without `|` and `&` is, at most `u32::MAX`: each `?` and each `[]` is a level.
#[cycle(depths)]
pub fn unary_depth(unary: &Unary) -> u32
    ensures { result ≡ min (piece_depth (unary_of unary.now)) (2 ^ 32 - 1) }
{
    match unary {
        Unary::Nullable(unary) => unary_depth(unary.get()).saturating_add(1),
        Unary::Suffixed { atom, arrays } => {
            let levels = (*arrays).min(u32::MAX as usize) as u32;
            atom_depth(atom).saturating_add(levels)
        }
    }
}

#[cycle(depths)]
fn atom_depth(atom: &Atom) -> u32
    ensures { result ≡ min (piece_depth (atom_of atom.now)) (2 ^ 32 - 1) }
{
    match atom {
        Atom::Group(written) => written_depth(written.get()).saturating_add(1),
        Atom::This => 0,
        Atom::Literal(_) => 0,
        Atom::Shape { fields, .. } => fields_depth(fields.as_slice()).saturating_add(1),
        Atom::Range { .. } => 1,
        Atom::Callable { result, .. } => match result {
            None => 1,
            Some(unary) => unary_depth(unary.get()).saturating_add(1),
        },
        Atom::Member { .. } => 0,
        Atom::Name { arguments, .. } => {
            if arguments.len() == 0 {
                0
            } else {
                writtens_depth(arguments.as_slice()).saturating_add(1)
            }
        }
    }
}

#[cycle(depths)]
fn fields_depth(fields: &[Field]) -> u32
    ensures { result ≡ min (greatest (λ x. piece_depth (field_of x)) fields.now) (2 ^ 32 - 1) }
{
    let mut most = 0;
    for field in fields {
        most = field_depth(field).max(most);
    }
    most
}

#[cycle(depths)]
fn field_depth(field: &Field) -> u32
    ensures { result ≡ min (piece_depth (field_of field.now)) (2 ^ 32 - 1) }
{
    written_depth(&field.value)
}
