//! The index of all declared nodes, and the answer to an ask.

ghost use Rattle.std.specs.Prelude.{◌≡◌, ◌<◌, ◌^◌, IfOk, map, length, Some, slice_get, vec_len};
ghost use Rattle.stan_base.specs.Name.{name_bytes};
ghost use Rattle.stan_base.specs.declared.ask_kind.AskKind.TheVariants as kinds;
ghost use Rattle.stan_model_table.specs.Table.{answer_of};
ghost use Rattle.stan_table.specs.Table.{node_of};
ghost use Rattle.stan_table.specs.Places.{Answers};

use crate::ask::fold;
use crate::{Ask, Exported};
use stan_base::{AskKind, OutOfMemory};
use std::alloc::Global;
use std::collections::BTreeMap;

/// The nodes of all files in the order of the files (`index_table`), with the first place of each name of a kind. There
/// are fewer than 2^32.
#[derive(Drop)]
pub struct Index {
    nodes: Vec<Exported>,
    classes: BTreeMap<Vec<u8>, u32>,
    functions: BTreeMap<Vec<u8>, u32>,
    constants: BTreeMap<Vec<u8>, u32>,
    ghost few: { vec_len nodes < 2 ^ 32 },
    ghost class_answers: { Answers kinds.Class classes (map node_of nodes.items) },
    ghost function_answers: { Answers kinds.Function functions (map node_of nodes.items) },
    ghost constant_answers: { Answers kinds.Constant constants (map node_of nodes.items) },
}

impl Index {
    ghost use Rattle.stan_table.specs.Index.{index_table};

    /// The index of these nodes, in this order. Only memory can be wanting.
    pub fn build(alloc: Global, nodes: Vec<Exported>) -> Result<Index, OutOfMemory>
        requires { vec_len nodes < 2 ^ 32 }
        ensures { IfOk result (λ index. index_table index ≡ map node_of nodes.items) }
    {
        let classes = first_places(alloc, AskKind::Class, nodes.as_slice())?;
        let functions = first_places(alloc, AskKind::Function, nodes.as_slice())?;
        let constants = first_places(alloc, AskKind::Constant, nodes.as_slice())?;
        Ok(Index {
            nodes,
            classes,
            functions,
            constants,
        })
    }

    /// The place of the first node of that kind and name.
    pub fn find(&self, ask: &Ask) -> Option<u32>
        ensures { result ≡ answer_of (index_table self.now) ask.now.kind (name_bytes ask.now.name) }
    {
        self.places(ask.kind).get(ask.name.bytes()).copied()
    }

    // The first places of the names of the kind.
    fn places(&self, kind: AskKind) -> &BTreeMap<Vec<u8>, u32>
        ensures { Answers kind result.now (index_table self.now) }
    {
        match kind {
            AskKind::Class => &self.classes,
            AskKind::Function => &self.functions,
            AskKind::Constant => &self.constants,
        }
    }

    /// How many nodes.
    pub fn len(&self) -> u32
        ensures { result ≡ length (index_table self.now) }
    {
        self.nodes.len() as u32
    }

    /// The node at a place below the number of nodes.
    pub fn node(&self, place: u32) -> &Exported
        requires { place < length (index_table self.now) }
        ensures { slice_get (index_table self.now) place ≡ Some (node_of result.now) }
    {
        &self.nodes[place as usize]
    }
}

// The place of the first node of the kind with each folded name.
fn first_places(
    alloc: Global,
    kind: AskKind,
    nodes: &[Exported],
) -> Result<BTreeMap<Vec<u8>, u32>, OutOfMemory>
    requires { length nodes.now < 2 ^ 32 }
    ensures { IfOk result (λ places. Answers kind places (map node_of nodes.now)) }
{
    let mut places = BTreeMap::new(alloc);
    for (place, node) in nodes.iter().enumerate() {
        if node.kind() == kind {
            let folded = fold(alloc, kind, node.name().bytes())?;
            if !places.contains_key(folded.as_slice()) {
                places.insert(folded, place as u32)?;
            }
        }
    }
    Ok(places)
}
