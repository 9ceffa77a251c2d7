//! Meetings of classes, and literals.

ghost use Rattle.std.specs.List.{list_all};
ghost use Rattle.std.specs.Prelude.{◌≡◌, ◌&&◌, nat_le, ◌≤◌, ◌∷◌, ◌++◌, drop, length, map, take, IfOk, MatchOption, OnOk};
ghost use Rattle.std.specs.Cmp.Lexicographic.{slice_cmp};
ghost use Rattle.std.specs.Ordering.{nat_cmp};
ghost use Rattle.stan_base.specs.Name.{name_bytes};
ghost use Rattle.stan_model_types.specs.NormalForms as model;
ghost use Rattle.stan_type_parts.specs.Parts.{form_of, part_of};

use sqlite_items::Items;
use stan_base::{Name, OutOfMemory};
use stan_type_parts::{Part, StringForm};
use std::alloc::Global;
use std::cmp::Ordering;

// Where a name goes among names in order. None where it stands there.
fn place_name(names: &[Name], name: &[u8]) -> Option<usize>
    ensures place { MatchOption result (model.put (slice_cmp nat_cmp) name.now (map name_bytes names.now) ≡ map name_bytes names.now) (λ i. model.put (slice_cmp nat_cmp) name.now (map name_bytes names.now) ≡ take i (map name_bytes names.now) ++ name.now ∷ drop i (map name_bytes names.now)) }
    ensures within { MatchOption result (length names.now ≡ length names.now) (λ i. i ≤ length names.now) }
{
    for i in 0..names.len() {
        match name.cmp(&names[i].bytes()) {
            Ordering::Less => return Some(i),
            Ordering::Equal => return None,
            Ordering::Greater => {}
        }
    }
    Some(names.len())
}

fn add_name(alloc: Global, names: &mut Vec<Name>, name: &Name) -> Result<(), OutOfMemory>
    ensures { OnOk result (map name_bytes names.new.items ≡ model.put (slice_cmp nat_cmp) (name_bytes name.now) (map name_bytes names.old.items)) }
{
    match place_name(names.as_slice(), name.bytes()) {
        None => Ok(()),
        Some(i) => {
            let copy = name.copy(alloc)?;
            names.insert(i, copy)?;
            Ok(())
        }
    }
}

// Names by their bytes, each once.
fn ordered_names(alloc: Global, names: &[Name]) -> Result<Vec<Name>, OutOfMemory>
    ensures { IfOk result (λ ordered. map name_bytes ordered.items ≡ model.ordered_names (map name_bytes names.now)) }
{
    let mut ordered = Vec::new(alloc);
    for name in names {
        add_name(alloc, &mut ordered, name)?;
    }
    Ok(ordered)
}

/// The meeting of the classes: of one class an object of it, and of none any object.
pub fn mend_meeting(alloc: Global, names: &[Name]) -> Result<Part, OutOfMemory>
    ensures { IfOk result (λ part. part_of part ≡ model.meeting_of (model.ordered_names (map name_bytes names.now))) }
{
    let ordered = ordered_names(alloc, names)?;
    meeting_of(alloc, ordered)
}

fn meeting_of(alloc: Global, names: Vec<Name>) -> Result<Part, OutOfMemory>
    ensures { IfOk result (λ part. part_of part ≡ model.meeting_of (map name_bytes names.items)) }
{
    match names.as_slice() {
        [] => Ok(Part::AnyObject),
        [only] => Ok(Part::Object {
            name: only.copy(alloc)?,
            arguments: Vec::new(alloc),
        }),
        _ => Ok(Part::Meeting(names)),
    }
}

/// Whether a text may be a literal or a key: at most 64 bytes, all from 20 to 7E (hexadecimal).
pub fn is_literal_text(text: &[u8]) -> bool
    ensures { result ≡ model.is_literal_text text.now }
{
    text.len() <= 64 && all_printable(text)
}

fn all_printable(text: &[u8]) -> bool
    ensures { result ≡ list_all (λ b. nat_le 32 b && nat_le b 126) text.now }
{
    text.iter().all(|byte| is_printable(*byte))
}

fn is_printable(byte: u8) -> bool
    ensures { result ≡ (nat_le 32 byte && nat_le byte 126) }
{
    32 <= byte && byte <= 126
}

/// A literal, or a non-empty string where the text is none.
pub fn literal_form(alloc: Global, text: &[u8]) -> Result<StringForm, OutOfMemory>
    ensures { IfOk result (λ form. form_of form ≡ model.literal_form text.now) }
{
    if is_literal_text(text) {
        Ok(StringForm::Literal(Items::from_slice(alloc, text)?))
    } else {
        Ok(StringForm::NonEmpty)
    }
}

/// A form alone.
pub fn mend_form(alloc: Global, form: &StringForm) -> Result<StringForm, OutOfMemory>
    ensures { IfOk result (λ mended. form_of mended ≡ model.mended_form (form_of form.now)) }
{
    match form {
        StringForm::Literal(text) => literal_form(alloc, text.as_slice()),
        StringForm::NonEmpty => Ok(StringForm::NonEmpty),
        StringForm::Plain => Ok(StringForm::Plain),
    }
}
