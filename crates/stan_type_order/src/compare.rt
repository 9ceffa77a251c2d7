//! Types and parts in the order of their bytes.

ghost use Rattle.std.specs.Prelude.{◌≡◌, ◌++◌, length, map};
ghost use Rattle.stan_base.specs.Name.{name_bytes};
ghost use Rattle.stan_model_types.specs.Types as model;
ghost use Rattle.stan_model_types.specs.TypeBytes.{all_fields, all_parts, all_types, fields_bytes, kind_of, part_bytes, text_bytes, truth_bytes, type_bytes};
ghost use Rattle.stan_type_parts.specs.Parts.{class_string_of, field_of, form_of, part_of};
ghost use Rattle.stan_type_order.specs.Order.{Decides, field_bytes, list_bytes};

use crate::fields::{
    compare_bare, compare_flags, compare_forms, compare_ints, compare_keys, compare_lengths,
    compare_names, compare_texts,
};
use crate::kinds::kind;
use stan_base::Name;
use stan_type_parts::{Field, Part, PhpType, StringForm};
use std::cmp::Ordering;

/// The order of two types by their bytes. Types are `Equal` exactly where they are equal.
#[cycle(order)]
pub fn compare_types(a: &PhpType, b: &PhpType) -> Ordering
    ensures decides { Decides result (type_bytes a.now) (type_bytes b.now) }
    ensures equal { result ≡ Ordering.Equal → a.now ≡ b.now }
{
    compare_lists(a.parts(), b.parts())
}

#[cycle(order)]
fn compare_lists(a: &[Part], b: &[Part]) -> Ordering
    ensures decides { Decides result (list_bytes (length a.now) (all_parts (model.of_parts (map part_of a.now)))) (list_bytes (length b.now) (all_parts (model.of_parts (map part_of b.now)))) }
    ensures equal { result ≡ Ordering.Equal → map part_of a.now ≡ map part_of b.now }
{
    match compare_lengths(a.len(), b.len()) {
        Ordering::Less => Ordering::Less,
        Ordering::Equal => compare_all_parts(a, b),
        Ordering::Greater => Ordering::Greater,
    }
}

// Lists of one length.
#[cycle(order)]
fn compare_all_parts(a: &[Part], b: &[Part]) -> Ordering
    requires { length a.now ≡ length b.now }
    ensures decides { Decides result (all_parts (model.of_parts (map part_of a.now))) (all_parts (model.of_parts (map part_of b.now))) }
    ensures equal { result ≡ Ordering.Equal → map part_of a.now ≡ map part_of b.now }
{
    for i in 0..a.len() {
        match compare_parts(&a[i], &b[i]) {
            Ordering::Less => return Ordering::Less,
            Ordering::Equal => {}
            Ordering::Greater => return Ordering::Greater,
        }
    }
    Ordering::Equal
}

#[cycle(order)]
fn compare_arguments(a: &[PhpType], b: &[PhpType]) -> Ordering
    ensures decides { Decides result (list_bytes (length a.now) (all_types (model.of_types a.now))) (list_bytes (length b.now) (all_types (model.of_types b.now))) }
    ensures equal { result ≡ Ordering.Equal → a.now ≡ b.now }
{
    match compare_lengths(a.len(), b.len()) {
        Ordering::Less => Ordering::Less,
        Ordering::Equal => compare_all_types(a, b),
        Ordering::Greater => Ordering::Greater,
    }
}

#[cycle(order)]
fn compare_all_types(a: &[PhpType], b: &[PhpType]) -> Ordering
    requires { length a.now ≡ length b.now }
    ensures decides { Decides result (all_types (model.of_types a.now)) (all_types (model.of_types b.now)) }
    ensures equal { result ≡ Ordering.Equal → a.now ≡ b.now }
{
    for i in 0..a.len() {
        match compare_types(&a[i], &b[i]) {
            Ordering::Less => return Ordering::Less,
            Ordering::Equal => {}
            Ordering::Greater => return Ordering::Greater,
        }
    }
    Ordering::Equal
}

#[cycle(order)]
fn compare_shapes(a: &[Field], b: &[Field]) -> Ordering
    ensures decides { Decides result (list_bytes (length a.now) (all_fields (model.of_fields (map field_of a.now)))) (list_bytes (length b.now) (all_fields (model.of_fields (map field_of b.now)))) }
    ensures equal { result ≡ Ordering.Equal → map field_of a.now ≡ map field_of b.now }
{
    match compare_lengths(a.len(), b.len()) {
        Ordering::Less => Ordering::Less,
        Ordering::Equal => compare_all_fields(a, b),
        Ordering::Greater => Ordering::Greater,
    }
}

#[cycle(order)]
fn compare_all_fields(a: &[Field], b: &[Field]) -> Ordering
    requires { length a.now ≡ length b.now }
    ensures decides { Decides result (all_fields (model.of_fields (map field_of a.now))) (all_fields (model.of_fields (map field_of b.now))) }
    ensures equal { result ≡ Ordering.Equal → map field_of a.now ≡ map field_of b.now }
{
    for i in 0..a.len() {
        match compare_fields(&a[i], &b[i]) {
            Ordering::Less => return Ordering::Less,
            Ordering::Equal => {}
            Ordering::Greater => return Ordering::Greater,
        }
    }
    Ordering::Equal
}

#[cycle(order)]
fn compare_fields(a: &Field, b: &Field) -> Ordering
    ensures decides { Decides result (field_bytes (field_of a.now)) (field_bytes (field_of b.now)) }
    ensures equal { result ≡ Ordering.Equal → field_of a.now ≡ field_of b.now }
{
    match compare_keys(&a.key, &b.key) {
        Ordering::Less => Ordering::Less,
        Ordering::Equal => compare_values(a.optional, &a.value, b.optional, &b.value),
        Ordering::Greater => Ordering::Greater,
    }
}

#[cycle(order)]
fn compare_values(optional: bool, a: &PhpType, other: bool, b: &PhpType) -> Ordering
    ensures decides { Decides result (truth_bytes optional ++ type_bytes a.now) (truth_bytes other ++ type_bytes b.now) }
    ensures equal { result ≡ Ordering.Equal → (optional ≡ other) × (a.now ≡ b.now) }
{
    match compare_flags(optional, other) {
        Ordering::Less => Ordering::Less,
        Ordering::Equal => compare_types(a, b),
        Ordering::Greater => Ordering::Greater,
    }
}

/// The order of two parts: by kind number, and then by the bytes of the fields. Parts are `Equal` exactly where they are equal.
#[cycle(order)]
pub fn compare_parts(a: &Part, b: &Part) -> Ordering
    ensures decides { Decides result (part_bytes (part_of a.now)) (part_bytes (part_of b.now)) }
    ensures equal { result ≡ Ordering.Equal → part_of a.now ≡ part_of b.now }
{
    match kind(a).cmp(&kind(b)) {
        Ordering::Less => Ordering::Less,
        Ordering::Equal => compare_alike(a, b),
        Ordering::Greater => Ordering::Greater,
    }
}

// Parts of one kind.
#[cycle(order)]
fn compare_alike(a: &Part, b: &Part) -> Ordering
    requires { kind_of (part_of a.now) ≡ kind_of (part_of b.now) }
    ensures decides { Decides result (fields_bytes (part_of a.now)) (fields_bytes (part_of b.now)) }
    ensures equal { result ≡ Ordering.Equal → part_of a.now ≡ part_of b.now }
{
    match a {
        Part::Object { name, arguments } => compare_object(name, arguments.as_slice(), b),
        Part::Static(name) => compare_static(name, b),
        Part::Meeting(names) => compare_meeting(names.as_slice(), b),
        Part::AnyObject => compare_bare(a, b),
        Part::Template { owner, name, bound } => compare_template(owner, name, bound, b),
        Part::Array {
            key,
            value,
            is_list,
            is_non_empty,
        } => compare_array(key, value, *is_list, *is_non_empty, b),
        Part::Shape(fields) => compare_shape(fields.as_slice(), b),
        Part::Callable => compare_bare(a, b),
        Part::Int { least, greatest } => compare_range(*least, *greatest, b),
        Part::Float => compare_bare(a, b),
        Part::Str(form) => compare_string(form, b),
        Part::ClassString(class) => compare_class_string(class, b),
        Part::False => compare_bare(a, b),
        Part::True => compare_bare(a, b),
        Part::Null => compare_bare(a, b),
        Part::Void => compare_bare(a, b),
        Part::ImplicitMixed => compare_bare(a, b),
        Part::ExplicitMixed => compare_bare(a, b),
    }
}

#[cycle(order)]
fn compare_object(name: &Name, arguments: &[PhpType], b: &Part) -> Ordering
    requires { kind_of (part_of b.now) ≡ 1 }
    ensures decides { Decides result (fields_bytes (model.Object (name_bytes name.now) (model.of_types arguments.now))) (fields_bytes (part_of b.now)) }
    ensures equal { result ≡ Ordering.Equal → model.Object (name_bytes name.now) (model.of_types arguments.now) ≡ part_of b.now }
{
    match b {
        Part::Object {
            name: other,
            arguments: others,
        } => compare_named(name, arguments, other, others.as_slice()),
        _ => unreachable!(),
    }
}

#[cycle(order)]
fn compare_named(name: &Name, arguments: &[PhpType], other: &Name, others: &[PhpType]) -> Ordering
    ensures decides { Decides result (fields_bytes (model.Object (name_bytes name.now) (model.of_types arguments.now))) (fields_bytes (model.Object (name_bytes other.now) (model.of_types others.now))) }
    ensures equal { result ≡ Ordering.Equal → (name_bytes name.now ≡ name_bytes other.now) × (arguments.now ≡ others.now) }
{
    match compare_texts(name.bytes(), other.bytes()) {
        Ordering::Less => Ordering::Less,
        Ordering::Equal => compare_arguments(arguments, others),
        Ordering::Greater => Ordering::Greater,
    }
}

fn compare_static(name: &Name, b: &Part) -> Ordering
    requires { kind_of (part_of b.now) ≡ 2 }
    ensures decides { Decides result (fields_bytes (model.Static (name_bytes name.now))) (fields_bytes (part_of b.now)) }
    ensures equal { result ≡ Ordering.Equal → model.Static (name_bytes name.now) ≡ part_of b.now }
{
    match b {
        Part::Static(other) => compare_texts(name.bytes(), other.bytes()),
        _ => unreachable!(),
    }
}

fn compare_meeting(names: &[Name], b: &Part) -> Ordering
    requires { kind_of (part_of b.now) ≡ 3 }
    ensures decides { Decides result (fields_bytes (model.Meeting (map name_bytes names.now))) (fields_bytes (part_of b.now)) }
    ensures equal { result ≡ Ordering.Equal → model.Meeting (map name_bytes names.now) ≡ part_of b.now }
{
    match b {
        Part::Meeting(others) => compare_names(names, others.as_slice()),
        _ => unreachable!(),
    }
}

#[cycle(order)]
fn compare_template(owner: &Name, name: &Name, bound: &PhpType, b: &Part) -> Ordering
    requires { kind_of (part_of b.now) ≡ 5 }
    ensures decides { Decides result (fields_bytes (model.Template (name_bytes owner.now) (name_bytes name.now) bound.now)) (fields_bytes (part_of b.now)) }
    ensures equal { result ≡ Ordering.Equal → model.Template (name_bytes owner.now) (name_bytes name.now) bound.now ≡ part_of b.now }
{
    match b {
        Part::Template {
            owner: other_owner,
            name: other,
            bound: other_bound,
        } => match compare_texts(owner.bytes(), other_owner.bytes()) {
            Ordering::Less => Ordering::Less,
            Ordering::Equal => compare_bounds(name, bound, other, other_bound),
            Ordering::Greater => Ordering::Greater,
        },
        _ => unreachable!(),
    }
}

#[cycle(order)]
fn compare_bounds(name: &Name, a: &PhpType, other: &Name, b: &PhpType) -> Ordering
    ensures decides { Decides result (text_bytes (name_bytes name.now) ++ type_bytes a.now) (text_bytes (name_bytes other.now) ++ type_bytes b.now) }
    ensures equal { result ≡ Ordering.Equal → (name_bytes name.now ≡ name_bytes other.now) × (a.now ≡ b.now) }
{
    match compare_texts(name.bytes(), other.bytes()) {
        Ordering::Less => Ordering::Less,
        Ordering::Equal => compare_types(a, b),
        Ordering::Greater => Ordering::Greater,
    }
}

#[cycle(order)]
fn compare_array(
    key: &PhpType,
    value: &PhpType,
    is_list: bool,
    is_non_empty: bool,
    b: &Part,
) -> Ordering
    requires { kind_of (part_of b.now) ≡ 6 }
    ensures decides { Decides result (fields_bytes (model.Array key.now value.now is_list is_non_empty)) (fields_bytes (part_of b.now)) }
    ensures equal { result ≡ Ordering.Equal → model.Array key.now value.now is_list is_non_empty ≡ part_of b.now }
{
    match b {
        Part::Array {
            key: other_key,
            value: other_value,
            is_list: other_list,
            is_non_empty: other_non_empty,
        } => {
            let flags = compare_both_flags(is_list, is_non_empty, *other_list, *other_non_empty);
            match compare_types(key, other_key) {
                Ordering::Less => Ordering::Less,
                Ordering::Equal => match compare_types(value, other_value) {
                    Ordering::Less => Ordering::Less,
                    Ordering::Equal => flags,
                    Ordering::Greater => Ordering::Greater,
                },
                Ordering::Greater => Ordering::Greater,
            }
        }
        _ => unreachable!(),
    }
}

fn compare_both_flags(
    is_list: bool,
    is_non_empty: bool,
    other_list: bool,
    other_non_empty: bool,
) -> Ordering
    ensures decides { Decides result (truth_bytes is_list ++ truth_bytes is_non_empty) (truth_bytes other_list ++ truth_bytes other_non_empty) }
    ensures equal { result ≡ Ordering.Equal → (is_list ≡ other_list) × (is_non_empty ≡ other_non_empty) }
{
    match compare_flags(is_list, other_list) {
        Ordering::Less => Ordering::Less,
        Ordering::Equal => compare_flags(is_non_empty, other_non_empty),
        Ordering::Greater => Ordering::Greater,
    }
}

#[cycle(order)]
fn compare_shape(fields: &[Field], b: &Part) -> Ordering
    requires { kind_of (part_of b.now) ≡ 7 }
    ensures decides { Decides result (fields_bytes (model.Shape (model.of_fields (map field_of fields.now)))) (fields_bytes (part_of b.now)) }
    ensures equal { result ≡ Ordering.Equal → model.Shape (model.of_fields (map field_of fields.now)) ≡ part_of b.now }
{
    match b {
        Part::Shape(others) => compare_shapes(fields, others.as_slice()),
        _ => unreachable!(),
    }
}

fn compare_range(least: i64, greatest: i64, b: &Part) -> Ordering
    requires { kind_of (part_of b.now) ≡ 9 }
    ensures decides { Decides result (fields_bytes (model.Int least greatest)) (fields_bytes (part_of b.now)) }
    ensures equal { result ≡ Ordering.Equal → model.Int least greatest ≡ part_of b.now }
{
    match b {
        Part::Int {
            least: other_least,
            greatest: other_greatest,
        } => match compare_ints(least, *other_least) {
            Ordering::Less => Ordering::Less,
            Ordering::Equal => compare_ints(greatest, *other_greatest),
            Ordering::Greater => Ordering::Greater,
        },
        _ => unreachable!(),
    }
}

fn compare_string(form: &StringForm, b: &Part) -> Ordering
    requires { kind_of (part_of b.now) ≡ 11 }
    ensures decides { Decides result (fields_bytes (model.Str (form_of form.now))) (fields_bytes (part_of b.now)) }
    ensures equal { result ≡ Ordering.Equal → model.Str (form_of form.now) ≡ part_of b.now }
{
    match b {
        Part::Str(other) => compare_forms(form, other),
        _ => unreachable!(),
    }
}

#[cycle(order)]
fn compare_class_string(class: &Option<PhpType>, b: &Part) -> Ordering
    requires { kind_of (part_of b.now) ≡ 12 }
    ensures decides { Decides result (fields_bytes (class_string_of class.now)) (fields_bytes (part_of b.now)) }
    ensures equal { result ≡ Ordering.Equal → class_string_of class.now ≡ part_of b.now }
{
    match b {
        Part::ClassString(other) => compare_classes(class, other),
        _ => unreachable!(),
    }
}

#[cycle(order)]
fn compare_classes(a: &Option<PhpType>, b: &Option<PhpType>) -> Ordering
    ensures decides { Decides result (fields_bytes (class_string_of a.now)) (fields_bytes (class_string_of b.now)) }
    ensures equal { result ≡ Ordering.Equal → class_string_of a.now ≡ class_string_of b.now }
{
    match a {
        None => match b {
            None => Ordering::Equal,
            Some(_) => Ordering::Less,
        },
        Some(t) => match b {
            None => Ordering::Greater,
            Some(other) => compare_types(t, other),
        },
    }
}
