//! A type as a list of parts.

ghost use Rattle.std.specs.Prelude.{◌≡◌, map};
ghost use Rattle.stan_model_types.specs.Types.{of_parts};
ghost use Rattle.stan_model_types.specs.NormalForms.{IsNormal};
ghost use Rattle.stan_type_parts.specs.Parts.{part_of};

use sqlite_items::Items;
use stan_base::Name;
use std::marker::Model;

/// Which strings a part of the kind string has.
#[derive(Drop)]
pub enum StringForm {
    /// One text.
    Literal(Items<u8>),
    /// Every text but `''`.
    NonEmpty,
    /// Every text.
    Plain,
}

/// The key of a field.
#[derive(Drop)]
pub enum Key {
    Int(i64),
    Text(Items<u8>),
}

/// A field of a shape.
#[cycle(types)]
#[derive(Drop)]
pub struct Field {
    pub key: Key,
    /// Whether it may be missing.
    pub optional: bool,
    pub value: PhpType,
}

/// A part of a type, one variant a kind.
#[cycle(types)]
#[derive(Drop)]
pub enum Part {
    /// An object of a class, with the class's arguments.
    Object {
        name: Name,
        arguments: Vec<PhpType>,
    },
    /// `static(C)`
    Static(Name),
    /// An object that is of each of these classes.
    Meeting(Vec<Name>),
    AnyObject,
    Template {
        owner: Name,
        name: Name,
        bound: PhpType,
    },
    Array {
        key: PhpType,
        value: PhpType,
        is_list: bool,
        is_non_empty: bool,
    },
    Shape(Vec<Field>),
    Callable,
    /// From the least to the greatest.
    Int {
        least: i64,
        greatest: i64,
    },
    Float,
    Str(StringForm),
    ClassString(Option<PhpType>),
    False,
    True,
    Null,
    Void,
    ImplicitMixed,
    ExplicitMixed,
}

/// A type: a list of parts.
#[cycle(types)]
#[derive(Drop)]
pub struct PhpType {
    parts: Vec<Part>,
}

impl Model for PhpType {
    ghost use Rattle.std.specs.Prelude.{map};
    ghost use Rattle.stan_model_types.specs.Types.{PhpType, of_parts};
    ghost use Rattle.stan_model_types.specs.TypeCodes.{type_code};
    ghost use Rattle.stan_model_types.specs.TypeLimits.{type_count};
    ghost use Rattle.stan_model_types.specs.NormalForms.{IsNormal};

    ghost Value = { PhpType };

    ghost coded = { type_code };

    ghost use Rattle.stan_type_parts.specs.Parts.{part_of};

    ghost view = { λ t. of_parts (map part_of t.parts.items) };

    ghost invariant = { λ t. IsNormal (of_parts (map part_of t.parts.items)) };

    ghost size = { type_count };

    ghost use Rattle.std.proofs.Common.{arith};
    ghost use Rattle.stan_type_parts.specs.Falls.{child_count};

    ghost size_decreases = { λ t h. Prim.omega (arith, child_count t.parts.items) };
}

impl PhpType {
    /// The type of these parts, which are those of a normal form.
    pub fn from_parts(parts: Vec<Part>) -> PhpType
        requires { IsNormal (of_parts (map part_of parts.items)) }
        ensures { result ≡ of_parts (map part_of parts.items) }
    {
        PhpType { parts }
    }

    /// The parts in order.
    pub fn parts(&self) -> &[Part]
        ensures value { of_parts (map part_of result.now) ≡ self.now }
        ensures normal { IsNormal self.now }
    {
        self.parts.as_slice()
    }
}
