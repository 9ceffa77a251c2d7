//! The texts of parts, and of the types in them.

ghost use Rattle.std.specs.Prelude.{◌≡◌, ◌++◌, [], IfOk, OnOk, codes, if◌then◌else◌, map, string_bytes};
ghost use Rattle.stan_base.specs.Name.{name_bytes};
ghost use Rattle.stan_model_types.specs.Types.{Array, Object, Shape, Static, of_fields, of_parts, of_types};
ghost use Rattle.stan_model_types.specs.TypeTexts as model;
ghost use Rattle.stan_type_parts.specs.Parts.{class_string_of, field_of, part_of};
ghost use Rattle.stan_type_text.specs.Fields.{field_text};

use crate::scalars::{
    array_word, bar, begins_true, is_any_array, is_false, is_true, mark, put, put_form, put_ints,
    put_key, put_names, put_shown,
};
use stan_base::{Name, OutOfMemory};
use stan_type_parts::{Field, Part, PhpType};
use std::alloc::Global;

/// The text of a type. Only memory can be wanting.
///
/// - The texts of parts stand in order with `|` between them; `false` and `true` together are `bool`, and no part is `never`.
/// - A literal stands in `'`. Nothing in a literal, a name or a key is escaped; bytes that aren't UTF-8 are replaced.
pub fn text(alloc: Global, t: &PhpType) -> Result<String, OutOfMemory>
    ensures { IfOk result (λ text. string_bytes text ≡ model.type_text t.now) }
{
    let mut out = String::new(alloc);
    put_type(&mut out, t)?;
    Ok(out)
}

#[cycle(texts)]
fn put_type(out: &mut String, t: &PhpType) -> Result<(), OutOfMemory>
    ensures { OnOk result (string_bytes out.new ≡ string_bytes out.old ++ model.type_text t.now) }
{
    match t.parts().split_first() {
        None => { put(out, "never") }
        Some((first, others)) => {
            put_piece(out, true, false, begins_true(others), first)?;
            put_more_parts(out, others, is_false(first))
        }
    }
}

// The parts behind others; `before` says whether `false` stands before them.
#[cycle(texts)]
fn put_more_parts(out: &mut String, parts: &[Part], before: bool) -> Result<(), OutOfMemory>
    ensures { OnOk result (string_bytes out.new ≡ string_bytes out.old ++ model.more_parts (of_parts (map part_of parts.now)) before) }
{
    let mut rest = parts;
    let mut before = before;
    while let Some((part, others)) = rest.split_first() {
        put_piece(out, false, before, begins_true(others), part)?;
        before = is_false(part);
        rest = others;
    }
    Ok(())
}

// A part among others: whether it is the first, whether `false` stands before it, and whether `true` stands behind it.
#[cycle(texts)]
fn put_piece(
    out: &mut String,
    first: bool,
    before: bool,
    behind: bool,
    part: &Part,
) -> Result<(), OutOfMemory>
    ensures { OnOk result (string_bytes out.new ≡ string_bytes out.old ++ model.piece first before behind (part_of part.now) (model.part_text (part_of part.now))) }
{
    if is_false(part) && behind {
        put(out, bar(first))?;
        put(out, "bool")
    } else if is_true(part) && before {
        Ok(())
    } else {
        put(out, bar(first))?;
        put_part(out, part)
    }
}

#[cycle(texts)]
fn put_part(out: &mut String, part: &Part) -> Result<(), OutOfMemory>
    ensures { OnOk result (string_bytes out.new ≡ string_bytes out.old ++ model.part_text (part_of part.now)) }
{
    match part {
        Part::Object { name, arguments } => put_object(out, name, arguments.as_slice()),
        Part::Static(name) => put_static(out, name),
        Part::Meeting(names) => put_names(out, names.as_slice()),
        Part::AnyObject => put(out, "object"),
        Part::Template { name, .. } => put_shown(out, name.bytes()),
        Part::Array {
            key,
            value,
            is_list,
            is_non_empty,
        } => put_array(out, key, value, *is_list, *is_non_empty),
        Part::Shape(fields) => put_shape(out, fields.as_slice()),
        Part::Callable => put(out, "callable"),
        Part::Int { least, greatest } => put_ints(out, *least, *greatest),
        Part::Float => put(out, "float"),
        Part::Str(form) => put_form(out, form),
        Part::ClassString(class) => put_class_string(out, class),
        Part::False => put(out, "false"),
        Part::True => put(out, "true"),
        Part::Null => put(out, "null"),
        Part::Void => put(out, "void"),
        Part::ImplicitMixed => put(out, "mixed"),
        Part::ExplicitMixed => put(out, "mixed"),
    }
}

fn put_static(out: &mut String, name: &Name) -> Result<(), OutOfMemory>
    ensures { OnOk result (string_bytes out.new ≡ string_bytes out.old ++ model.part_text (Static (name_bytes name.now))) }
{
    put(out, "static(")?;
    put_shown(out, name.bytes())?;
    put(out, ")")
}

#[cycle(texts)]
fn put_object(out: &mut String, name: &Name, arguments: &[PhpType]) -> Result<(), OutOfMemory>
    ensures { OnOk result (string_bytes out.new ≡ string_bytes out.old ++ model.part_text (Object (name_bytes name.now) (of_types arguments.now))) }
{
    put_shown(out, name.bytes())?;
    match arguments.split_first() {
        None => Ok(()),
        Some((first, others)) => {
            put(out, "<")?;
            put_type(out, first)?;
            put_more_types(out, others)?;
            put(out, ">")
        }
    }
}

#[cycle(texts)]
fn put_more_types(out: &mut String, types: &[PhpType]) -> Result<(), OutOfMemory>
    ensures { OnOk result (string_bytes out.new ≡ string_bytes out.old ++ model.more_types (of_types types.now)) }
{
    for t in types {
        put(out, ", ")?;
        put_type(out, t)?;
    }
    Ok(())
}

#[cycle(texts)]
fn put_array(
    out: &mut String,
    key: &PhpType,
    value: &PhpType,
    is_list: bool,
    is_non_empty: bool,
) -> Result<(), OutOfMemory>
    ensures { OnOk result (string_bytes out.new ≡ string_bytes out.old ++ model.part_text (Array key.now value.now is_list is_non_empty)) }
{
    if is_any_array(key, value, is_list, is_non_empty) {
        return put(out, "array");
    }
    put(out, array_word(is_list, is_non_empty))?;
    put_array_key(out, key, is_list)?;
    put_type(out, value)?;
    put(out, ">")
}

// The key of an array that is no list.
#[cycle(texts)]
fn put_array_key(out: &mut String, key: &PhpType, is_list: bool) -> Result<(), OutOfMemory>
    ensures { OnOk result (string_bytes out.new ≡ string_bytes out.old ++ (if is_list then [] else model.type_text key.now ++ codes ", ")) }
{
    if is_list {
        return Ok(());
    }
    put_type(out, key)?;
    put(out, ", ")
}

#[cycle(texts)]
fn put_shape(out: &mut String, fields: &[Field]) -> Result<(), OutOfMemory>
    ensures { OnOk result (string_bytes out.new ≡ string_bytes out.old ++ model.part_text (Shape (of_fields (map field_of fields.now)))) }
{
    match fields.split_first() {
        None => put(out, "array{}"),
        Some((first, others)) => {
            put(out, "array{")?;
            put_field(out, first)?;
            put_more_fields(out, others)?;
            put(out, "}")
        }
    }
}

#[cycle(texts)]
fn put_more_fields(out: &mut String, fields: &[Field]) -> Result<(), OutOfMemory>
    ensures { OnOk result (string_bytes out.new ≡ string_bytes out.old ++ model.more_fields (of_fields (map field_of fields.now))) }
{
    for field in fields {
        put(out, ", ")?;
        put_field(out, field)?;
    }
    Ok(())
}

#[cycle(texts)]
fn put_field(out: &mut String, field: &Field) -> Result<(), OutOfMemory>
    ensures { OnOk result (string_bytes out.new ≡ string_bytes out.old ++ field_text (field_of field.now)) }
{
    put_key(out, &field.key)?;
    put(out, mark(field.optional))?;
    put_type(out, &field.value)
}

#[cycle(texts)]
fn put_class_string(out: &mut String, class: &Option<PhpType>) -> Result<(), OutOfMemory>
    ensures { OnOk result (string_bytes out.new ≡ string_bytes out.old ++ model.part_text (class_string_of class.now)) }
{
    match class {
        None => put(out, "class-string"),
        Some(t) => put_class(out, t),
    }
}

#[cycle(texts)]
fn put_class(out: &mut String, t: &PhpType) -> Result<(), OutOfMemory>
    ensures { OnOk result (string_bytes out.new ≡ string_bytes out.old ++ (codes "class-string<" ++ (model.type_text t.now ++ codes ">"))) }
{
    put(out, "class-string<")?;
    put_type(out, t)?;
    put(out, ">")
}
