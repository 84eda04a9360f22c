ghost use Rattle.std.specs.Prelude.{◌≡◌, ◌++◌, Option, IfOk, OnOk};
ghost use Rattle.std.specs.Option.{option_to_list};
ghost use Rattle.spv_codec.specs.declared.module.RawInst.{RawInst};
ghost use Rattle.spv_build.specs.Items.{items_of};

use ports::OutOfMemory;
use spv_codec::RawInst;
use std::alloc::Global;

/// An item that one instruction of a binary says.
pub(crate) trait FromInst: Drop {
    /// The item of this kind that an instruction says, if it says one.
    ghost said: { RawInst → Option Self };

    /// Gives that item.
    ///
    /// `OutOfMemory` comes for want of memory alone.
    fn read(alloc: Global, inst: &RawInst) -> Result<Option<Self>, OutOfMemory>
        ensures { IfOk result (λ item. item ≡ said inst.now) };
}

/// The items of one kind that instructions say, in order.
pub(crate) fn items_of<T: FromInst>(alloc: Global, insts: &[RawInst]) -> Result<Vec<T>, OutOfMemory>
    ensures { IfOk result (λ items. items.items ≡ items_of T.said insts.now) }
{
    let mut items = Vec::new(alloc);
    for inst in insts {
        push_some(&mut items, T::read(alloc, inst)?)?;
    }
    Ok(items)
}

/// Appends an item, where there is one.
fn push_some<T: Drop>(items: &mut Vec<T>, item: Option<T>) -> Result<(), OutOfMemory>
    ensures { OnOk result (items.new.items ≡ items.old.items ++ option_to_list item) }
{
    match item {
        Some(item) => {
            items.push(item)?;
            Ok(())
        }
        None => Ok(()),
    }
}
