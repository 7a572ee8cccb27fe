//! The nodes that all handles share.

ghost use Rattle.std.specs.Prelude.{◌≡◌, IfOk, IfErr, IfSome, true};
ghost use Rattle.vx_value.specs.View.{type_of};
ghost use Rattle.vx_value.specs.Errors.{OnlyOutOfMemory};
ghost use Rattle.vx_tree.specs.Tree.{Tree, slots_of};
ghost use Rattle.vx_tree.specs.TreeView.{data_of, tree_of};
ghost use Rattle.vx_tree.specs.Well.{IsNodeOf, IsWell, AreWell};
ghost use Rattle.vx_value.specs.Supported.{has_columns};

use crate::arrays::boolean::BoolData;
use crate::arrays::constant::ConstantData;
use crate::arrays::decimal::DecimalData;
use crate::arrays::filter::FilterData;
use crate::arrays::masked::MaskedData;
use crate::arrays::primitive::PrimitiveData;
use crate::arrays::scalar_fn::ScalarFnData;
use crate::arrays::scalar_fn_validity::EmptyArrayData;
use crate::arrays::slice::SliceData;
use crate::arrays::varbinview::VarBinViewData;
use std::alloc::{AllocError, Global};
use std::marker::Model;
use std::rc::Rc;
use vx_value::{DType, VortexResult};

/// The slots of a node. A slot that may be left out can be `None`.
pub type ArraySlots = Vec<Option<ArrayRef>>;

/// The data of a node, by encoding. (own: the original boxes a dynamic type)
#[derive(Debug, Drop)]
pub enum Encoding {
    Constant(ConstantData),
    Slice(SliceData),
    Filter(FilterData),
    Masked(MaskedData),
    ScalarFnValidity(EmptyArrayData),
    ScalarFn(ScalarFnData),
    Dict(EmptyArrayData),
    Chunked(EmptyArrayData),
    Interleave(EmptyArrayData),
    Null(EmptyArrayData),
    Bool(BoolData),
    Primitive(PrimitiveData),
    Decimal(DecimalData),
    VarBinView(VarBinViewData),
    Struct(EmptyArrayData),
    Extension(EmptyArrayData),
}

/// The parts of a node, which needn't make a well-formed tree. (own)
#[cycle(tree)]
#[derive(Debug, Drop)]
pub struct Node {
    pub dtype: DType,
    /// The number of rows.
    pub len: usize,
    pub encoding: Encoding,
    pub slots: Vec<Option<ArrayRef>>,
}

/// A shared, immutable and well-formed tree. Cloning copies only the reference.
#[cycle(tree)]
#[derive(Debug)]
pub struct ArrayRef {
    pub(crate) node: Rc<Node>,
}

// by hand: a crate that drops an array would prove a derived drop again, and those of all encodings with it
impl Drop for ArrayRef {
    #[cycle(tree)]
    fn drop(self) {
        let ArrayRef { node: _node } = self;
    }
}

impl Model for ArrayRef {
    ghost use Rattle.vx_tree.specs.Tree.Nodes.{Tree, coded_tree, height};

    ghost Value = { Tree };

    ghost coded = { coded_tree };

    ghost use Rattle.vx_tree.specs.TreeView.{tree_of};
    ghost use Rattle.vx_tree.specs.Well.{IsTree};

    ghost view = { λ a. tree_of a.node.value };

    ghost invariant = { λ a. IsTree (tree_of a.node.value) };

    ghost size = { height };

    ghost use Rattle.std.proofs.Common.{arith};
    ghost use Rattle.vx_tree.specs.Falls.{below};

    ghost size_decreases = { λ a h. omega (arith, below a.node.value.slots.items) };
}

impl Clone for ArrayRef {
    ghost is_clone = { λ a b. b ≡ a };

    fn clone(&self) -> Result<ArrayRef, AllocError> {
        Ok(ArrayRef {
            node: self.node.clone()?,
        })
    }
}

impl Clone for Encoding {
    ghost is_clone = { λ a b. data_of b ≡ data_of a };

    fn clone(&self) -> Result<Encoding, AllocError> {
        match self {
            Encoding::Constant(data) => Ok(Encoding::Constant(data.clone()?)),
            Encoding::Slice(data) => Ok(Encoding::Slice(data.clone()?)),
            Encoding::Filter(data) => Ok(Encoding::Filter(data.clone()?)),
            Encoding::Masked(data) => Ok(Encoding::Masked(*data)),
            Encoding::ScalarFnValidity(data) => Ok(Encoding::ScalarFnValidity(*data)),
            Encoding::ScalarFn(data) => Ok(Encoding::ScalarFn(data.clone()?)),
            Encoding::Dict(data) => Ok(Encoding::Dict(*data)),
            Encoding::Chunked(data) => Ok(Encoding::Chunked(*data)),
            Encoding::Interleave(data) => Ok(Encoding::Interleave(*data)),
            Encoding::Null(data) => Ok(Encoding::Null(*data)),
            Encoding::Bool(data) => Ok(Encoding::Bool(data.clone()?)),
            Encoding::Primitive(data) => Ok(Encoding::Primitive(data.clone()?)),
            Encoding::Decimal(data) => Ok(Encoding::Decimal(data.clone()?)),
            Encoding::VarBinView(data) => Ok(Encoding::VarBinView(data.clone()?)),
            Encoding::Struct(data) => Ok(Encoding::Struct(*data)),
            Encoding::Extension(data) => Ok(Encoding::Extension(*data)),
        }
    }
}

impl Clone for Node {
    ghost is_clone = { λ a b. tree_of b ≡ tree_of a };

    fn clone(&self) -> Result<Node, AllocError> {
        Ok(Node {
            dtype: self.dtype.clone()?,
            len: self.len,
            slots: self.slots.clone()?,
            encoding: self.encoding.clone()?,
        })
    }
}

fn know_slot(slot: &Option<ArrayRef>)
    ensures { IfSome slot.now IsWell }
{
    match slot {
        Some(child) => {
            let _well = &child.node;
        }
        None => {}
    }
}

/// States that each child is well formed.
#[tactic(auto, using(crate::proofs::SlotsLemmas::well_append))]
pub(crate) fn know_well(slots: &[Option<ArrayRef>])
    ensures { AreWell (slots_of slots.now) }
{
    for slot in slots {
        know_slot(slot);
    }
}

impl Node {
    /// Makes the tree of these parts. They must meet the conditions of the encoding, which must support the type. Fails only with
    /// `OutOfMemory`.
    pub fn into_array(self, alloc: Global) -> VortexResult<ArrayRef>
        requires node { IsNodeOf (tree_of self) }
        requires supported { has_columns (type_of self.dtype) ≡ true }
        ensures ok { IfOk result (λ t. t ≡ tree_of self) }
        ensures err { OnlyOutOfMemory result }
    {
        know_well(&self.slots);
        Ok(ArrayRef {
            node: Rc::new(alloc, self)?,
        })
    }
}

impl ArrayRef {
    /// Returns the root, which may be shared.
    pub(crate) fn into_root(self) -> Rc<Node>
        ensures { tree_of result.value ≡ self }
    {
        let ArrayRef { node } = self;
        node
    }

    /// Returns the parts of the root. Copies them if the root is shared. Fails only with `OutOfMemory`.
    pub fn into_node(self) -> VortexResult<Node>
        ensures ok { IfOk result (λ n. tree_of n ≡ self) }
        ensures err { OnlyOutOfMemory result }
    {
        Ok(Rc::unwrap_or_clone(self.into_root())?)
    }

    /// Returns the parts of the root. Hands the tree back if the root is shared. (own)
    pub fn try_into_node(self) -> Result<Node, ArrayRef>
        ensures ok { IfOk result (λ n. tree_of n ≡ self) }
        ensures err { IfErr result (λ a. a ≡ self) }
    {
        let ArrayRef { node } = self;
        match Rc::try_unwrap(node) {
            Ok(node) => Ok(node),
            Err(node) => Err(ArrayRef { node }),
        }
    }
}
