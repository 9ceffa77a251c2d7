//! Copies that equal what they are made of. Only memory can be wanting.

ghost use Rattle.std.specs.Prelude.{◌≡◌, map, IfOk};
ghost use Rattle.stan_base.specs.Name.{name_bytes};
ghost use Rattle.stan_model_types.specs.Types as model;
ghost use Rattle.stan_type_parts.specs.Parts.{class_string_of, field_of, form_of, key_of, part_of};

use crate::part::{Field, Key, Part, PhpType, StringForm};
use sqlite_items::Items;
use stan_base::{Name, OutOfMemory};
use std::alloc::Global;

fn copy_names(alloc: Global, names: &[Name]) -> Result<Vec<Name>, OutOfMemory>
    ensures { IfOk result (λ copies. map name_bytes copies.items ≡ map name_bytes names.now) }
{
    let mut copies = Vec::with_capacity(alloc, names.len())?;
    for name in names {
        copies.push(name.copy(alloc)?)?;
    }
    Ok(copies)
}

fn copy_form(alloc: Global, form: &StringForm) -> Result<StringForm, OutOfMemory>
    ensures { IfOk result (λ copy. form_of copy ≡ form_of form.now) }
{
    match form {
        StringForm::Literal(text) => Ok(StringForm::Literal(Items::from_slice(
            alloc,
            text.as_slice(),
        )?)),
        StringForm::NonEmpty => Ok(StringForm::NonEmpty),
        StringForm::Plain => Ok(StringForm::Plain),
    }
}

fn copy_key(alloc: Global, key: &Key) -> Result<Key, OutOfMemory>
    ensures { IfOk result (λ copy. key_of copy ≡ key_of key.now) }
{
    match key {
        Key::Int(number) => Ok(Key::Int(*number)),
        Key::Text(text) => Ok(Key::Text(Items::from_slice(alloc, text.as_slice())?)),
    }
}

impl PhpType {
    /// A type that equals this one.
    pub fn copy(&self, alloc: Global) -> Result<PhpType, OutOfMemory>
        ensures { IfOk result (λ copy. copy ≡ self.now) }
    {
        copy_type(alloc, self)
    }
}

impl Part {
    /// A part that stands for the same one.
    pub fn copy(&self, alloc: Global) -> Result<Part, OutOfMemory>
        ensures { IfOk result (λ copy. part_of copy ≡ part_of self.now) }
    {
        copy_part(alloc, self)
    }
}

#[cycle(copies)]
fn copy_type(alloc: Global, t: &PhpType) -> Result<PhpType, OutOfMemory>
    ensures { IfOk result (λ copy. copy ≡ t.now) }
{
    Ok(PhpType::from_parts(copy_parts(alloc, t.parts())?))
}

#[cycle(copies)]
fn copy_parts(alloc: Global, parts: &[Part]) -> Result<Vec<Part>, OutOfMemory>
    ensures { IfOk result (λ copies. map part_of copies.items ≡ map part_of parts.now) }
{
    let mut copies = Vec::with_capacity(alloc, parts.len())?;
    for part in parts {
        copies.push(copy_part(alloc, part)?)?;
    }
    Ok(copies)
}

#[cycle(copies)]
fn copy_types(alloc: Global, types: &[PhpType]) -> Result<Vec<PhpType>, OutOfMemory>
    ensures { IfOk result (λ copies. copies.items ≡ types.now) }
{
    let mut copies = Vec::with_capacity(alloc, types.len())?;
    for t in types {
        copies.push(copy_type(alloc, t)?)?;
    }
    Ok(copies)
}

#[cycle(copies)]
fn copy_fields(alloc: Global, fields: &[Field]) -> Result<Vec<Field>, OutOfMemory>
    ensures { IfOk result (λ copies. map field_of copies.items ≡ map field_of fields.now) }
{
    let mut copies = Vec::with_capacity(alloc, fields.len())?;
    for field in fields {
        copies.push(copy_field(alloc, field)?)?;
    }
    Ok(copies)
}

#[cycle(copies)]
fn copy_field(alloc: Global, field: &Field) -> Result<Field, OutOfMemory>
    ensures { IfOk result (λ copy. field_of copy ≡ field_of field.now) }
{
    let key = copy_key(alloc, &field.key)?;
    let value = copy_type(alloc, &field.value)?;
    Ok(Field {
        key,
        optional: field.optional,
        value,
    })
}

#[cycle(copies)]
fn copy_object(alloc: Global, name: &Name, arguments: &[PhpType]) -> Result<Part, OutOfMemory>
    ensures { IfOk result (λ copy. part_of copy ≡ model.Object (name_bytes name.now) (model.of_types arguments.now)) }
{
    let name = name.copy(alloc)?;
    let arguments = copy_types(alloc, arguments)?;
    Ok(Part::Object { name, arguments })
}

#[cycle(copies)]
fn copy_template(
    alloc: Global,
    owner: &Name,
    name: &Name,
    bound: &PhpType,
) -> Result<Part, OutOfMemory>
    ensures { IfOk result (λ copy. part_of copy ≡ model.Template (name_bytes owner.now) (name_bytes name.now) bound.now) }
{
    let owner = owner.copy(alloc)?;
    let name = name.copy(alloc)?;
    let bound = copy_type(alloc, bound)?;
    Ok(Part::Template { owner, name, bound })
}

#[cycle(copies)]
fn copy_array(
    alloc: Global,
    key: &PhpType,
    value: &PhpType,
    is_list: bool,
    is_non_empty: bool,
) -> Result<Part, OutOfMemory>
    ensures { IfOk result (λ copy. part_of copy ≡ model.Array key.now value.now is_list is_non_empty) }
{
    let key = copy_type(alloc, key)?;
    let value = copy_type(alloc, value)?;
    Ok(Part::Array {
        key,
        value,
        is_list,
        is_non_empty,
    })
}

#[cycle(copies)]
fn copy_class_string(alloc: Global, class: &Option<PhpType>) -> Result<Part, OutOfMemory>
    ensures { IfOk result (λ copy. part_of copy ≡ class_string_of class.now) }
{
    match class {
        None => Ok(Part::ClassString(None)),
        Some(t) => Ok(Part::ClassString(Some(copy_type(alloc, t)?))),
    }
}

#[cycle(copies)]
fn copy_part(alloc: Global, part: &Part) -> Result<Part, OutOfMemory>
    ensures { IfOk result (λ copy. part_of copy ≡ part_of part.now) }
{
    match part {
        Part::Object { name, arguments } => copy_object(alloc, name, arguments.as_slice()),
        Part::Static(name) => Ok(Part::Static(name.copy(alloc)?)),
        Part::Meeting(names) => Ok(Part::Meeting(copy_names(alloc, names.as_slice())?)),
        Part::AnyObject => Ok(Part::AnyObject),
        Part::Template { owner, name, bound } => copy_template(alloc, owner, name, bound),
        Part::Array {
            key,
            value,
            is_list,
            is_non_empty,
        } => copy_array(alloc, key, value, *is_list, *is_non_empty),
        Part::Shape(fields) => Ok(Part::Shape(copy_fields(alloc, fields.as_slice())?)),
        Part::Callable => Ok(Part::Callable),
        Part::Int { least, greatest } => Ok(Part::Int {
            least: *least,
            greatest: *greatest,
        }),
        Part::Float => Ok(Part::Float),
        Part::Str(form) => Ok(Part::Str(copy_form(alloc, form)?)),
        Part::ClassString(class) => copy_class_string(alloc, class),
        Part::False => Ok(Part::False),
        Part::True => Ok(Part::True),
        Part::Null => Ok(Part::Null),
        Part::Void => Ok(Part::Void),
        Part::ImplicitMixed => Ok(Part::ImplicitMixed),
        Part::ExplicitMixed => Ok(Part::ExplicitMixed),
    }
}
