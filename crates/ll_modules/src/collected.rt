ghost use Rattle.std.specs.Prelude.{◌≡◌, OnOk};
ghost use Rattle.ll_modules.specs.Modules.{none_collected, with_item, with_small};

use crate::definitions::Definition;
use crate::items::ModuleItem;
use inst_walk::Body;
use ll_items::SmallItem;
use ll_tree::{Function, Head, LlInst, Node, NodeRef, Struct, Target, Variable};
use sqlite_items::Items;
use std::alloc::{AllocError, Global};

/// What is kept of the items of a module, each list in the order of the text.
#[derive(Drop)]
pub struct Collected {
    pub targets: Items<Target>,
    pub structs: Items<Struct>,
    pub variables: Items<Variable>,
    pub declares: Items<Head>,
    pub functions: Items<Function>,
    pub bodies: Items<Body<LlInst>>,
    pub ocl_version: Items<NodeRef>,
    pub nodes: Items<Node>,
}

/// Nothing. Takes no memory.
pub fn none_collected(alloc: Global) -> Collected
    ensures { result ≡ none_collected }
{
    Collected {
        targets: Items::new(alloc),
        structs: Items::new(alloc),
        variables: Items::new(alloc),
        declares: Items::new(alloc),
        functions: Items::new(alloc),
        bodies: Items::new(alloc),
        ocl_version: Items::new(alloc),
        nodes: Items::new(alloc),
    }
}

/// Adds what is kept of an item.
pub fn add_item(kept: &mut Collected, item: ModuleItem) -> Result<(), AllocError>
    ensures { OnOk result (kept.new ≡ with_item kept.old item) }
{
    match item {
        ModuleItem::Small(item) => add_small(kept, item),
        ModuleItem::Declaration(head) => kept.declares.push(head),
        ModuleItem::Definition(definition) => {
            let Definition { function, body } = definition;
            kept.functions.push(function)?;
            kept.bodies.push(body)
        }
    }
}

/// Adds what is kept of an item that is no function.
fn add_small(kept: &mut Collected, item: SmallItem) -> Result<(), AllocError>
    ensures { OnOk result (kept.new ≡ with_small kept.old item) }
{
    match item {
        SmallItem::Target(target) => kept.targets.push(target),
        SmallItem::Struct(definition) => kept.structs.push(definition),
        SmallItem::Variable(variable) => kept.variables.push(variable),
        SmallItem::Node(node) => kept.nodes.push(node),
        SmallItem::Versions(nodes) => kept.ocl_version.append(nodes),
        SmallItem::Dropped => Ok(()),
    }
}
