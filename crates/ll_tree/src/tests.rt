use crate::child::Child;
use crate::inst::{Inst, LlInst};
use crate::name::Name;
use crate::op::{CastKind, Op, PhiEntry};
use crate::parts::Parts;
use crate::ty::{LlType, TypeBase};
use crate::value::{TypedValue, Value};
use inst_walk::{InstSet, Renaming};
use ports::OutOfMemory;
use sqlite_items::Items;
use std::alloc::Global;
use std::test::Fail;

/// What an instruction takes at a place, through the trait alone.
fn taken<I: InstSet>(inst: &I, i: usize) -> Option<(I::Name, Option<I::Name>)> {
    if i < inst.uses_len() {
        Some((inst.use_at(i), inst.parent_at(i)))
    } else {
        None
    }
}

fn named(number: u32) -> Name {
    Name { number, byte: 9 }
}

fn typed(alloc: Global, value: Value) -> TypedValue {
    TypedValue {
        ty: LlType {
            base: TypeBase::Int(32),
            pointers: Items::new(alloc),
        },
        value,
    }
}

/// `ptrtoint (i32 @name to i32)`
fn converted(alloc: Global, number: u32) -> Result<Value, OutOfMemory> {
    let operand = typed(alloc, Value::Global(named(number)));
    Ok(Value::Cast {
        kind: CastKind::PtrToInt,
        operand: Child::new(alloc, operand)?,
        to: typed(alloc, Value::Null).ty,
    })
}

/// `%1 = phi i32 [ 7, %2 ], [ ptrtoint (i32 @3 to i32), %4 ], [ %5, %6 ]`
fn phi(alloc: Global) -> Result<LlInst, OutOfMemory> {
    let mut entries = Parts::new(alloc);
    entries.push(PhiEntry {
        value: Value::Int(7),
        block: named(2),
    })?;
    entries.push(PhiEntry {
        value: converted(alloc, 3)?,
        block: named(4),
    })?;
    entries.push(PhiEntry {
        value: Value::Local(named(5)),
        block: named(6),
    })?;
    let inst = Inst {
        byte: 0,
        defines: Some(named(1)),
        op: Op::Phi {
            ty: typed(alloc, Value::Null).ty,
            entries,
        },
    };
    LlInst::new(alloc, inst)
}

#[test]
fn takes_the_named_values(rt: HostRuntime) -> Result<(), Fail> {
    let inst = phi(rt.alloc())?;
    assert_eq!(rt; inst.result(), Some(1));
    assert_eq!(rt; taken(&inst, 0), Some((3, Some(4))));
    assert_eq!(rt; taken(&inst, 1), Some((5, Some(6))));
    assert_eq!(rt; taken(&inst, 2), None);
    Ok(())
}

#[test]
fn renames_inside_constants(rt: HostRuntime) -> Result<(), Fail> {
    let mut inst = phi(rt.alloc())?;
    let mut names = Renaming::new(rt.alloc());
    names.put(3, 30)?;
    names.put(6, 60)?;
    inst.rename(&names);
    assert_eq!(rt; taken(&inst, 0), Some((30, Some(4))));
    assert_eq!(rt; taken(&inst, 1), Some((5, Some(60))));
    Ok(())
}
