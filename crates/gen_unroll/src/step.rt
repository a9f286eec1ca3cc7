// Steps of an unrolled module.
use crate::block::Block;
use crate::parameter_sort::ParameterSort;
use ls_text::Place;
use typed_ir::Const;
use verilog_ast::{GenerateItem, HeaderPort, Identifier, PlainItem, PortNet, Shape, Variable};

/// What comes next of a module in the order of its text. Nothing is copied: a step refers to the tree.
#[derive(Clone, Copy)]
pub enum Step<'a> {
    /// A name of a header that lists the names of its ports.
    Listed(Identifier),
    /// A port that the header declares.
    Port(&'a HeaderPort),
    /// From here on the name stands for the value.
    Parameter(ParameterSort, Identifier, Const),
    /// `input`, in the body
    Inputs(Place, PortNet, &'a Shape, &'a [Identifier]),
    /// `output`, in the body
    Outputs(Place, PortNet, &'a Shape, &'a [Variable]),
    /// A declaration, but for those of parameters; assignments, an `always` block, or instances.
    Item(&'a PlainItem),
    /// The label of a loop, once and also where it has no turn, or of the branch that is taken.
    Label(Identifier),
    /// What follows stands in the block, up to its `Close`; these are the items of the block.
    Open(Block, &'a [GenerateItem]),
    Close,
}
