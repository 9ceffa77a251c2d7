//! A namespace and its uses.

ghost use Rattle.std.specs.Prelude.{◌≡◌, ◌<◌, ◌∷◌, ◌++◌, IfOk, OnOk, OnErr, IfSome, MatchOption, None, Some, List, [], length, map, option_map, take};
ghost use Rattle.std.specs.Str.{bytes_eq};
ghost use Rattle.stan_base.specs.Name.{name_bytes};
ghost use Rattle.stan_base.specs.declared.ask_kind.AskKind.TheVariants as AskKinds;
ghost use Rattle.stan_model_names.specs.Resolve as model;
ghost use Rattle.stan_names.specs.Scopes.{scope_of, use_of};

use sqlite_items::Items;
use stan_base::{AskKind, Name, OutOfMemory, begins_relative};
use std::alloc::Global;

// What a `use` brings.
#[derive(Drop)]
struct Use {
    kind: AskKind,
    alias: Vec<u8>,
    name: Name,
}

/// A namespace, and the uses before a place of it, in order (`scope_of`).
#[derive(Drop)]
pub struct Names {
    namespace: Vec<u8>,
    uses: Items<Use>,
}

// Whether both are the same kind.
fn same_ask(one: AskKind, other: AskKind) -> bool
    ensures { result ≡ model.same_ask one other }
{
    match one {
        AskKind::Class => matches!(other, AskKind::Class),
        AskKind::Function => matches!(other, AskKind::Function),
        AskKind::Constant => matches!(other, AskKind::Constant),
    }
}

// Whether aliases of a kind are the same.
fn same_alias(kind: AskKind, one: &[u8], other: &[u8]) -> bool
    ensures { result ≡ bytes_eq (model.fold_alias kind one.now) (model.fold_alias kind other.now) }
{
    match kind {
        AskKind::Class | AskKind::Function => one.eq_ignore_ascii_case(other),
        AskKind::Constant => one == other,
    }
}

// The name that the first of the uses of this kind and alias brings.
fn aliased<'n>(uses: &'n [Use], kind: AskKind, alias: &[u8]) -> Option<&'n [u8]>
    ensures { MatchOption result (model.aliased kind alias.now (map use_of uses.now) ≡ None) (λ name. model.aliased kind alias.now (map use_of uses.now) ≡ Some name.now) }
{
    for it in uses {
        if same_ask(it.kind, kind) && same_alias(kind, &it.alias, alias) {
            return Some(it.name.bytes());
        }
    }
    None
}

// Where the first backslash of a name stands.
fn backslash(written: &[u8]) -> Option<usize>
    ensures exact { result ≡ model.backslash written.now }
    ensures within { IfSome result (λ at. at < length written.now) }
{
    written.iter().position(|byte| *byte == b'\\')
}

// A name behind another.
fn joined(alloc: Global, front: &[u8], back: &[u8]) -> Result<Name, OutOfMemory>
    ensures { IfOk result (λ name. name_bytes name ≡ front.now ++ back.now) }
{
    let mut bytes = front.to_vec(alloc)?;
    bytes.extend_from_slice(back)?;
    Name::new(alloc, &bytes)
}

// A name in a namespace.
fn within(alloc: Global, namespace: &[u8], name: &[u8]) -> Result<Name, OutOfMemory>
    ensures { IfOk result (λ full. name_bytes full ≡ model.within namespace.now name.now) }
{
    if namespace.is_empty() {
        return Name::new(alloc, name);
    }
    let mut bytes = namespace.to_vec(alloc)?;
    bytes.push(b'\\')?;
    bytes.extend_from_slice(name)?;
    Name::new(alloc, &bytes)
}

impl Names {
    /// A namespace without uses; the global one has no bytes. Only memory can be wanting.
    pub fn new(alloc: Global, namespace: &[u8]) -> Result<Names, OutOfMemory>
        ensures { IfOk result (λ names. scope_of names ≡ record { namespace = namespace.now; uses = [] }) }
    {
        let namespace = namespace.to_vec(alloc)?;
        Ok(Names {
            namespace,
            uses: Items::new(alloc),
        })
    }

    /// The namespace, without bytes if it is the global one.
    pub fn namespace(&self) -> &[u8]
        ensures { result.now ≡ (scope_of self.now).namespace }
    {
        self.namespace.as_slice()
    }

    /// The full name of what is declared there by this name. Only memory can be wanting.
    pub fn declared(&self, alloc: Global, name: &[u8]) -> Result<Name, OutOfMemory>
        ensures { IfOk result (λ full. name_bytes full ≡ model.within (scope_of self.now).namespace name.now) }
    {
        within(alloc, &self.namespace, name)
    }

    /// Puts one use at the end. Where memory is wanting the uses stay as they were.
    pub fn add(
        &mut self,
        alloc: Global,
        kind: AskKind,
        alias: &[u8],
        name: &Name,
    ) -> Result<(), OutOfMemory>
        ensures namespace { (scope_of self.new).namespace ≡ (scope_of self.old).namespace }
        ensures added { OnOk result ((scope_of self.new).uses ≡ (scope_of self.old).uses ++ record { kind = kind; alias = alias.now; name = name_bytes name.now } ∷ []) }
        ensures kept { OnErr result ((scope_of self.new).uses ≡ (scope_of self.old).uses) }
    {
        let alias = alias.to_vec(alloc)?;
        let name = name.copy(alloc)?;
        self.uses.push(Use { kind, alias, name })?;
        Ok(())
    }

    // The full name of a qualified name whose first backslash stands there.
    fn qualified(&self, alloc: Global, at: usize, written: &[u8]) -> Result<Name, OutOfMemory>
        requires { at < length written.now }
        ensures { IfOk result (λ name. name_bytes name ≡ model.replaced (model.aliased AskKinds.Class (take at written.now) (scope_of self.now).uses) (scope_of self.now).namespace at written.now) }
    {
        match aliased(self.uses.as_slice(), AskKind::Class, &written[..at]) {
            Some(name) => joined(alloc, name, &written[at..]),
            None => within(alloc, &self.namespace, written),
        }
    }

    // The full name of an unqualified name.
    fn unqualified(&self, alloc: Global, kind: AskKind, written: &[u8]) -> Result<Name, OutOfMemory>
        ensures { IfOk result (λ name. name_bytes name ≡ model.or_within (model.aliased kind written.now (scope_of self.now).uses) (scope_of self.now).namespace written.now) }
    {
        match aliased(self.uses.as_slice(), kind, written) {
            Some(name) => Name::new(alloc, name),
            None => within(alloc, &self.namespace, written),
        }
    }

    // The full name that a written one of this kind means first.
    fn full(&self, alloc: Global, kind: AskKind, written: &[u8]) -> Result<Name, OutOfMemory>
        ensures { IfOk result (λ name. name_bytes name ≡ model.full_name (scope_of self.now) kind written.now) }
    {
        if written.first() == Some(&b'\\') {
            return Name::new(alloc, &written[1..]);
        }
        if begins_relative(written) {
            return within(alloc, &self.namespace, &written[written.len().min(10)..]);
        }
        match backslash(written) {
            Some(at) => self.qualified(alloc, at, written),
            None => self.unqualified(alloc, kind, written),
        }
    }

    // The name itself, if it is no alias.
    fn unless_aliased(
        &self,
        alloc: Global,
        kind: AskKind,
        written: &[u8],
    ) -> Result<Option<Name>, OutOfMemory>
        ensures { IfOk result (λ name. option_map name_bytes name ≡ model.unless_aliased (model.aliased kind written.now (scope_of self.now).uses) written.now) }
    {
        match aliased(self.uses.as_slice(), kind, written) {
            Some(_) => Ok(None),
            None => {
                let name = Name::new(alloc, written)?;
                Ok(Some(name))
            }
        }
    }

    // The name that a written one means where the first is absent.
    fn second(
        &self,
        alloc: Global,
        kind: AskKind,
        written: &[u8],
    ) -> Result<Option<Name>, OutOfMemory>
        ensures { IfOk result (λ name. option_map name_bytes name ≡ model.second_name (scope_of self.now) kind written.now) }
    {
        match backslash(written) {
            Some(_) => Ok(None),
            None => match kind {
                AskKind::Class => Ok(None),
                AskKind::Function => self.unless_aliased(alloc, AskKind::Function, written),
                AskKind::Constant => self.unless_aliased(alloc, AskKind::Constant, written),
            },
        }
    }

    /// The full name of a class that a written name means. Only memory can be wanting.
    pub fn class(&self, alloc: Global, written: &[u8]) -> Result<Name, OutOfMemory>
        ensures { IfOk result (λ name. name_bytes name ≡ model.full_name (scope_of self.now) AskKinds.Class written.now) }
    {
        self.full(alloc, AskKind::Class, written)
    }

    /// The full name that a written one of a function or a constant means, and the one that it means where the first is absent: an
    /// unqualified name without an alias has one, also in the global namespace. A class has none.
    pub fn fallback(
        &self,
        alloc: Global,
        kind: AskKind,
        written: &[u8],
    ) -> Result<(Name, Option<Name>), OutOfMemory>
        ensures first { IfOk result (λ names. name_bytes names.0 ≡ model.full_name (scope_of self.now) kind written.now) }
        ensures second { IfOk result (λ names. option_map name_bytes names.1 ≡ model.second_name (scope_of self.now) kind written.now) }
    {
        let first = self.full(alloc, kind, written)?;
        let second = self.second(alloc, kind, written)?;
        Ok((first, second))
    }
}
