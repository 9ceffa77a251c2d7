//! The normal form of parts. `inner` is the number of levels that are left for the types inside.

ghost use Rattle.std.specs.Prelude.{◌≡◌, ◌+◌, ◌∷◌, ◌++◌, [], map, option_map, IfOk, OnOk};
ghost use Rattle.std.specs.List.{flat_map};
ghost use Rattle.std.specs.Option.{option_to_list};
ghost use Rattle.stan_model_types.specs.NormalForms as model;
ghost use Rattle.stan_model_types.specs.TypeBytes.{part_order};
ghost use Rattle.stan_model_types.specs.TypeLimits.{limited};
ghost use Rattle.stan_model_types.specs.Types as types;
ghost use Rattle.stan_type_parts.specs.Parts.{field_of, key_of, part_of};
ghost use Rattle.stan_type_normal.specs.Table.{table_of};

use crate::kinds::{add_kinds, count_kinds, has_kind};
use crate::meetings::{literal_form, mend_form, mend_meeting};
use crate::numbers::add_ints;
use crate::place::add;
use crate::strings::add_strings;
use crate::tables::{are_keys, counts_from, has_required};
use stan_base::OutOfMemory;
use stan_type_limits::is_within;
use stan_type_parts::{Field, Key, Part, PhpType};
use std::alloc::Global;

/// What an array and a shape have in common.
#[derive(Drop)]
pub struct Table {
    key: PhpType,
    value: PhpType,
    is_list: bool,
    is_filled: bool,
}

fn only_part(alloc: Global, part: Part) -> Result<Vec<Part>, OutOfMemory>
    ensures { IfOk result (λ parts. map part_of parts.items ≡ part_of part ∷ []) }
{
    let mut parts = Vec::with_capacity(alloc, 1)?;
    parts.push(part)?;
    Ok(parts)
}

/// The normal form of the parts of two lists.
#[cycle(normal)]
pub fn normal(
    alloc: Global,
    levels: u8,
    parts: &[Part],
    others: &[Part],
) -> Result<PhpType, OutOfMemory>
    ensures { IfOk result (λ t. t ≡ model.normal_within levels (map part_of parts.now ++ map part_of others.now)) }
{
    let made = normal_parts(alloc, levels, parts, others)?;
    Ok(PhpType::from_parts(made))
}

#[cycle(normal)]
fn normal_parts(
    alloc: Global,
    levels: u8,
    parts: &[Part],
    others: &[Part],
) -> Result<Vec<Part>, OutOfMemory>
    ensures { IfOk result (λ made. types.of_parts (map part_of made.items) ≡ model.normal_within levels (map part_of parts.now ++ map part_of others.now)) }
{
    if levels == 0 {
        let only = only_part(alloc, Part::ExplicitMixed)?;
        return Ok(only);
    }
    let mut gathered = Vec::with_capacity(alloc, parts.len().saturating_add(others.len()))?;
    gather(alloc, levels - 1, &mut gathered, parts)?;
    gather(alloc, levels - 1, &mut gathered, others)?;
    let made = settle(alloc, levels - 1, gathered.as_slice())?;
    Ok(made)
}

// Puts parts in order, each as it is alone.
#[cycle(normal)]
fn gather(alloc: Global, inner: u8, out: &mut Vec<Part>, parts: &[Part]) -> Result<(), OutOfMemory>
    ensures { OnOk result (map part_of out.new.items ≡ model.put_all part_order (flat_map (model.mended (model.normal_within inner)) (map part_of parts.now)) (map part_of out.old.items)) }
{
    for part in parts {
        add_mended(alloc, inner, out, part)?;
    }
    Ok(())
}

#[cycle(normal)]
fn add_mended(alloc: Global, inner: u8, out: &mut Vec<Part>, part: &Part) -> Result<(), OutOfMemory>
    ensures { OnOk result (map part_of out.new.items ≡ model.put_all part_order (model.mended (model.normal_within inner) (part_of part.now)) (map part_of out.old.items)) }
{
    match mend(alloc, inner, part)? {
        None => Ok(()),
        Some(mended) => add(out, mended),
    }
}

// A part as it is alone, and nothing for a range without numbers.
#[cycle(normal)]
fn mend(alloc: Global, inner: u8, part: &Part) -> Result<Option<Part>, OutOfMemory>
    ensures { IfOk result (λ mended. model.mended (model.normal_within inner) (part_of part.now) ≡ option_to_list (option_map part_of mended)) }
{
    match part {
        Part::Meeting(names) => Ok(Some(mend_meeting(alloc, names.as_slice())?)),
        Part::Shape(fields) => Ok(Some(mend_shape(alloc, inner, part, fields.as_slice())?)),
        Part::Int { least, greatest } => {
            if *greatest < *least {
                Ok(None)
            } else {
                Ok(Some(Part::Int {
                    least: *least,
                    greatest: *greatest,
                }))
            }
        }
        Part::Str(form) => Ok(Some(Part::Str(mend_form(alloc, form)?))),
        _ => Ok(Some(part.copy(alloc)?)),
    }
}

#[cycle(normal)]
fn mend_shape(alloc: Global, inner: u8, part: &Part, fields: &[Field]) -> Result<Part, OutOfMemory>
    requires { part_of part.now ≡ types.Shape (types.of_fields (map field_of fields.now)) }
    ensures { IfOk result (λ mended. part_of mended ≡ model.mended_shape (model.normal_within inner) (types.of_fields (map field_of fields.now))) }
{
    if are_keys(fields) {
        part.copy(alloc)
    } else {
        let key = join_keys(alloc, inner, fields)?;
        let value = join_values(alloc, inner, fields)?;
        Ok(Part::Array {
            key,
            value,
            is_list: false,
            is_non_empty: false,
        })
    }
}

/// The union of two types.
#[cycle(normal)]
fn join(alloc: Global, inner: u8, t: &PhpType, u: &PhpType) -> Result<PhpType, OutOfMemory>
    ensures { IfOk result (λ joined. joined ≡ model.join (model.normal_within inner) t.now u.now) }
{
    let joined = normal(alloc, inner, t.parts(), u.parts())?;
    Ok(joined)
}

#[cycle(normal)]
fn key_type(alloc: Global, inner: u8, key: &Key) -> Result<PhpType, OutOfMemory>
    ensures { IfOk result (λ t. t ≡ model.key_type (model.normal_within inner) (key_of key.now)) }
{
    let part = match key {
        Key::Int(number) => Part::Int {
            least: *number,
            greatest: *number,
        },
        Key::Text(text) => Part::Str(literal_form(alloc, text.as_slice())?),
    };
    let parts = only_part(alloc, part)?;
    normal(alloc, inner, parts.as_slice(), &[])
}

#[cycle(normal)]
fn join_keys(alloc: Global, inner: u8, fields: &[Field]) -> Result<PhpType, OutOfMemory>
    ensures { IfOk result (λ t. t ≡ model.join_all (model.normal_within inner) (model.key_types (model.normal_within inner) (types.of_fields (map field_of fields.now)))) }
{
    match fields.split_first() {
        None => Ok(never(alloc)),
        Some((first, others)) => {
            let key = key_type(alloc, inner, &first.key)?;
            join_more_keys(alloc, inner, key, others)
        }
    }
}

#[cycle(normal)]
fn join_more_keys(
    alloc: Global,
    inner: u8,
    t: PhpType,
    fields: &[Field],
) -> Result<PhpType, OutOfMemory>
    ensures { IfOk result (λ joined. joined ≡ model.join_onto (model.normal_within inner) t (model.key_types (model.normal_within inner) (types.of_fields (map field_of fields.now)))) }
{
    let mut joined = t;
    for field in fields {
        let key = key_type(alloc, inner, &field.key)?;
        joined = join(alloc, inner, &joined, &key)?;
    }
    Ok(joined)
}

#[cycle(normal)]
fn join_values(alloc: Global, inner: u8, fields: &[Field]) -> Result<PhpType, OutOfMemory>
    ensures { IfOk result (λ t. t ≡ model.join_all (model.normal_within inner) (model.value_types (types.of_fields (map field_of fields.now)))) }
{
    match fields.split_first() {
        None => Ok(never(alloc)),
        Some((first, others)) => {
            let value = first.value.copy(alloc)?;
            join_more_values(alloc, inner, value, others)
        }
    }
}

#[cycle(normal)]
fn join_more_values(
    alloc: Global,
    inner: u8,
    t: PhpType,
    fields: &[Field],
) -> Result<PhpType, OutOfMemory>
    ensures { IfOk result (λ joined. joined ≡ model.join_onto (model.normal_within inner) t (model.value_types (types.of_fields (map field_of fields.now)))) }
{
    let mut joined = t;
    for field in fields {
        joined = join(alloc, inner, &joined, &field.value)?;
    }
    Ok(joined)
}

/// The type without parts.
pub fn never(alloc: Global) -> PhpType
    ensures { result ≡ types.never }
{
    PhpType::from_parts(Vec::new(alloc))
}

// An array or a shape as a table; another part is none.
#[cycle(normal)]
fn as_table(alloc: Global, inner: u8, part: &Part) -> Result<Option<Table>, OutOfMemory>
    ensures { IfOk result (λ found. option_to_list (option_map table_of found) ≡ model.tables_of (model.normal_within inner) (part_of part.now)) }
{
    match part {
        Part::Array {
            key,
            value,
            is_list,
            is_non_empty,
        } => {
            let key = key.copy(alloc)?;
            let value = value.copy(alloc)?;
            Ok(Some(Table {
                key,
                value,
                is_list: *is_list,
                is_filled: *is_non_empty,
            }))
        }
        Part::Shape(fields) => Ok(Some(shape_table(alloc, inner, fields.as_slice())?)),
        _ => Ok(None),
    }
}

#[cycle(normal)]
fn shape_table(alloc: Global, inner: u8, fields: &[Field]) -> Result<Table, OutOfMemory>
    ensures { IfOk result (λ found. table_of found ≡ model.shape_table (model.normal_within inner) (types.of_fields (map field_of fields.now))) }
{
    let key = join_keys(alloc, inner, fields)?;
    let value = join_values(alloc, inner, fields)?;
    Ok(Table {
        key,
        value,
        is_list: counts_from(0, fields),
        is_filled: has_required(fields),
    })
}

// The table of a part joined to what was found before.
#[cycle(normal)]
fn with_part(
    alloc: Global,
    inner: u8,
    found: Option<Table>,
    part: &Part,
) -> Result<Option<Table>, OutOfMemory>
    ensures { IfOk result (λ joined. option_map table_of joined ≡ model.joined_tables (model.normal_within inner) (option_map table_of found) (model.tables_of (model.normal_within inner) (part_of part.now))) }
{
    match as_table(alloc, inner, part)? {
        None => Ok(found),
        Some(other) => Ok(Some(with_table(alloc, inner, found, other)?)),
    }
}

#[cycle(normal)]
fn with_table(
    alloc: Global,
    inner: u8,
    found: Option<Table>,
    other: Table,
) -> Result<Table, OutOfMemory>
    ensures { IfOk result (λ joined. Some (table_of joined) ≡ model.with_table (model.normal_within inner) (option_map table_of found) (table_of other)) }
{
    match found {
        None => Ok(other),
        Some(table) => {
            let key = join(alloc, inner, &table.key, &other.key)?;
            let value = join(alloc, inner, &table.value, &other.value)?;
            Ok(Table {
                key,
                value,
                is_list: table.is_list && other.is_list,
                is_filled: table.is_filled && other.is_filled,
            })
        }
    }
}

#[cycle(normal)]
fn joined_tables(alloc: Global, inner: u8, parts: &[Part]) -> Result<Option<Table>, OutOfMemory>
    ensures { IfOk result (λ joined. option_map table_of joined ≡ model.joined_tables (model.normal_within inner) None (flat_map (model.tables_of (model.normal_within inner)) (map part_of parts.now))) }
{
    let mut found = None;
    for part in parts {
        found = with_part(alloc, inner, found, part)?;
    }
    Ok(found)
}

fn add_table(out: &mut Vec<Part>, table: Option<Table>) -> Result<(), OutOfMemory>
    ensures { OnOk result (map part_of out.new.items ≡ model.put_all part_order (option_to_list (option_map model.table_part (option_map table_of table))) (map part_of out.old.items)) }
{
    match table {
        None => Ok(()),
        Some(table) => {
            let Table {
                key,
                value,
                is_list,
                is_filled,
            } = table;
            add(
                out,
                Part::Array {
                    key,
                    value,
                    is_list,
                    is_non_empty: is_filled,
                },
            )
        }
    }
}

// Puts the one array or shape in order: the only one there is, else the array of all.
#[cycle(normal)]
fn add_arrays(
    alloc: Global,
    inner: u8,
    out: &mut Vec<Part>,
    parts: &[Part],
) -> Result<(), OutOfMemory>
    ensures { OnOk result (map part_of out.new.items ≡ model.put_all part_order (model.array_parts (model.normal_within inner) (map part_of parts.now)) (map part_of out.old.items)) }
{
    if count_kinds(parts, 6, 7) > 1 {
        let table = joined_tables(alloc, inner, parts)?;
        add_table(out, table)?;
        Ok(())
    } else {
        add_kinds(alloc, out, parts, 6, 7)?;
        Ok(())
    }
}

#[cycle(normal)]
fn settle(alloc: Global, inner: u8, parts: &[Part]) -> Result<Vec<Part>, OutOfMemory>
    ensures { IfOk result (λ made. types.of_parts (map part_of made.items) ≡ model.settled (model.normal_within inner) (map part_of parts.now)) }
{
    let explicit = has_kind(parts, 18);
    let implicit = has_kind(parts, 17);
    if explicit {
        let only_explicit = only_part(alloc, Part::ExplicitMixed)?;
        Ok(only_explicit)
    } else if implicit {
        let only_implicit = only_part(alloc, Part::ImplicitMixed)?;
        Ok(only_implicit)
    } else {
        let made = settle_kinds(alloc, inner, parts)?;
        let limited = within_limits(alloc, made)?;
        Ok(limited)
    }
}

fn within_limits(alloc: Global, parts: Vec<Part>) -> Result<Vec<Part>, OutOfMemory>
    ensures { IfOk result (λ made. types.of_parts (map part_of made.items) ≡ limited (types.of_parts (map part_of parts.items))) }
{
    if is_within(parts.as_slice()) {
        Ok(parts)
    } else {
        only_part(alloc, Part::ExplicitMixed)
    }
}

// Each kind by its own rule, in order.
#[cycle(normal)]
fn settle_kinds(alloc: Global, inner: u8, parts: &[Part]) -> Result<Vec<Part>, OutOfMemory>
    ensures { IfOk result (λ made. map part_of made.items ≡ model.ordered part_order (model.settled_parts (model.normal_within inner) (map part_of parts.now))) }
{
    let mut made = Vec::with_capacity(alloc, parts.len())?;
    add_kinds(alloc, &mut made, parts, 1, 5)?;
    add_arrays(alloc, inner, &mut made, parts)?;
    add_kinds(alloc, &mut made, parts, 8, 8)?;
    add_ints(alloc, &mut made, parts)?;
    add_kinds(alloc, &mut made, parts, 10, 10)?;
    add_strings(alloc, &mut made, parts)?;
    add_kinds(alloc, &mut made, parts, 12, 16)?;
    Ok(made)
}
