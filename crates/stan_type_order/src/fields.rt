//! Numbers, texts, flags, forms and keys in the order of their bytes.

ghost use Rattle.std.specs.Prelude.{◌≡◌, length, map, true};
ghost use Rattle.stan_base.specs.Name.{name_bytes};
ghost use Rattle.stan_model_types.specs.TypeBytes.{number_bytes, int_bytes, all_texts, text_bytes, texts_bytes, truth_bytes, form_bytes, key_bytes, kind_of, fields_bytes};
ghost use Rattle.stan_type_parts.specs.Parts.{form_of, key_of, part_of};
ghost use Rattle.stan_type_order.specs.Order.{Decides, is_bare_kind};

use stan_base::Name;
use stan_type_parts::{Key, Part, StringForm};
use std::cmp::Ordering;

/// Two lengths or counts.
pub fn compare_lengths(a: usize, b: usize) -> Ordering
    ensures decides { Decides result (number_bytes a) (number_bytes b) }
    ensures equal { result ≡ Ordering.Equal → a ≡ b }
{
    a.cmp(&b)
}

pub fn compare_ints(a: i64, b: i64) -> Ordering
    ensures decides { Decides result (int_bytes a) (int_bytes b) }
    ensures equal { result ≡ Ordering.Equal → a ≡ b }
{
    compare_unsigned(a.cast_unsigned(), b.cast_unsigned())
}

fn compare_unsigned(a: u64, b: u64) -> Ordering
    ensures decides { Decides result (number_bytes a) (number_bytes b) }
    ensures equal { result ≡ Ordering.Equal → a ≡ b }
{
    a.cmp(&b)
}

pub fn compare_texts(a: &[u8], b: &[u8]) -> Ordering
    ensures decides { Decides result (text_bytes a.now) (text_bytes b.now) }
    ensures equal { result ≡ Ordering.Equal → a.now ≡ b.now }
{
    match compare_lengths(a.len(), b.len()) {
        Ordering::Less => Ordering::Less,
        Ordering::Equal => compare_long(a, b),
        Ordering::Greater => Ordering::Greater,
    }
}

// Texts of one length.
fn compare_long(a: &[u8], b: &[u8]) -> Ordering
    requires { length a.now ≡ length b.now }
    ensures decides { Decides result a.now b.now }
    ensures equal { result ≡ Ordering.Equal → a.now ≡ b.now }
{
    a.cmp(&b)
}

pub fn compare_names(a: &[Name], b: &[Name]) -> Ordering
    ensures decides { Decides result (texts_bytes (map name_bytes a.now)) (texts_bytes (map name_bytes b.now)) }
    ensures equal { result ≡ Ordering.Equal → map name_bytes a.now ≡ map name_bytes b.now }
{
    match compare_lengths(a.len(), b.len()) {
        Ordering::Less => Ordering::Less,
        Ordering::Equal => compare_all_names(a, b),
        Ordering::Greater => Ordering::Greater,
    }
}

fn compare_all_names(a: &[Name], b: &[Name]) -> Ordering
    requires { length a.now ≡ length b.now }
    ensures decides { Decides result (all_texts (map name_bytes a.now)) (all_texts (map name_bytes b.now)) }
    ensures equal { result ≡ Ordering.Equal → map name_bytes a.now ≡ map name_bytes b.now }
{
    for i in 0..a.len() {
        match compare_texts(a[i].bytes(), b[i].bytes()) {
            Ordering::Less => return Ordering::Less,
            Ordering::Equal => {}
            Ordering::Greater => return Ordering::Greater,
        }
    }
    Ordering::Equal
}

pub fn compare_flags(a: bool, b: bool) -> Ordering
    ensures decides { Decides result (truth_bytes a) (truth_bytes b) }
    ensures equal { result ≡ Ordering.Equal → a ≡ b }
{
    match (a, b) {
        (false, false) => Ordering::Equal,
        (false, true) => Ordering::Less,
        (true, false) => Ordering::Greater,
        (true, true) => Ordering::Equal,
    }
}

pub fn compare_forms(a: &StringForm, b: &StringForm) -> Ordering
    ensures decides { Decides result (form_bytes (form_of a.now)) (form_bytes (form_of b.now)) }
    ensures equal { result ≡ Ordering.Equal → form_of a.now ≡ form_of b.now }
{
    match a {
        StringForm::Literal(text) => match b {
            StringForm::Literal(other) => compare_texts(text.as_slice(), other.as_slice()),
            StringForm::NonEmpty => Ordering::Less,
            StringForm::Plain => Ordering::Less,
        },
        StringForm::NonEmpty => match b {
            StringForm::Literal(_) => Ordering::Greater,
            StringForm::NonEmpty => Ordering::Equal,
            StringForm::Plain => Ordering::Less,
        },
        StringForm::Plain => match b {
            StringForm::Literal(_) => Ordering::Greater,
            StringForm::NonEmpty => Ordering::Greater,
            StringForm::Plain => Ordering::Equal,
        },
    }
}

pub fn compare_keys(a: &Key, b: &Key) -> Ordering
    ensures decides { Decides result (key_bytes (key_of a.now)) (key_bytes (key_of b.now)) }
    ensures equal { result ≡ Ordering.Equal → key_of a.now ≡ key_of b.now }
{
    match a {
        Key::Int(number) => match b {
            Key::Int(other) => compare_ints(*number, *other),
            Key::Text(_) => Ordering::Less,
        },
        Key::Text(text) => match b {
            Key::Int(_) => Ordering::Greater,
            Key::Text(other) => compare_texts(text.as_slice(), other.as_slice()),
        },
    }
}

/// Parts of one kind that has no fields.
pub fn compare_bare(a: &Part, b: &Part) -> Ordering
    requires same { kind_of (part_of a.now) ≡ kind_of (part_of b.now) }
    requires bare { is_bare_kind (kind_of (part_of a.now)) ≡ true }
    ensures decides { Decides result (fields_bytes (part_of a.now)) (fields_bytes (part_of b.now)) }
    ensures equal { result ≡ Ordering.Equal → part_of a.now ≡ part_of b.now }
{
    let _ = a;
    let _ = b;
    Ordering::Equal
}
