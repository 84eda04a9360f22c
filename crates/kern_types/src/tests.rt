use super::*;
use kern_lanes::Width;
use std::test::Fail;

#[test]
fn structs_are_natural_or_packed(rt: HostRuntime) -> Result<(), Fail> {
    let mut table = TypeTable::new(rt.alloc(), PointerWidth::P64);
    let int = table.add(Ty::Int(Width::W32))?;
    let three = table.add(Ty::Vector { of: int, lanes: 3 })?;
    let natural = table.add(Ty::Struct {
        members: Ids::from_vec(vec![in rt.alloc(); int, three]?),
        packed: false,
    })?;
    let packed = table.add(Ty::Struct {
        members: Ids::from_vec(vec![in rt.alloc(); int, three]?),
        packed: true,
    })?;
    assert_eq!(rt;
        (size_of(&table, three), align_of(&table, three)),
        (Some(16), Some(16))
    );
    assert_eq!(rt;
        (size_of(&table, natural), align_of(&table, natural)),
        (Some(32), Some(16))
    );
    assert_eq!(rt;
        (size_of(&table, packed), align_of(&table, packed)),
        (Some(20), Some(1))
    );
    assert_eq!(rt; step(&table, natural, 1), Some((16, three)));
    assert_eq!(rt; step(&table, packed, 1), Some((4, three)));
    assert_eq!(rt; step(&table, packed, 2), None);
    assert_eq!(rt; step(&table, three, -1), Some((u64::MAX - 3, int)));
    assert!(rt; matches!(table.get(three), Ty::Vector { lanes: 3, .. }));
    Ok(())
}

#[test]
fn arrays_nest_and_are_bounded(rt: HostRuntime) -> Result<(), Fail> {
    let mut table = TypeTable::new(rt.alloc(), PointerWidth::P32);
    let byte = table.add(Ty::Int(Width::W8))?;
    let pair = table.add(Ty::Struct {
        members: Ids::from_vec(vec![in rt.alloc(); byte, byte]?),
        packed: false,
    })?;
    let pairs = table.add(Ty::Array { of: pair, count: 5 })?;
    let above = table.add(Ty::Array {
        of: byte,
        count: (1 << 40) + 1,
    })?;
    let pointer = table.add(Ty::Pointer {
        class: Class::Global,
        to: above,
    })?;
    assert_eq!(rt; size_of(&table, pair), Some(2));
    assert_eq!(rt; size_of(&table, pairs), Some(10));
    assert_eq!(rt; step(&table, pairs, 3), Some((6, pair)));
    assert_eq!(rt; step(&table, pair, 1), Some((1, byte)));
    assert_eq!(rt;
        (size_of(&table, above), align_of(&table, above)),
        (None, None)
    );
    assert_eq!(rt; size_of(&table, pointer), Some(4));
    Ok(())
}

#[test]
fn some_types_have_no_size(rt: HostRuntime) -> Result<(), Fail> {
    let mut table = TypeTable::new(rt.alloc(), PointerWidth::P64);
    let bit = table.add(Ty::Bool)?;
    let void = table.add(Ty::Void)?;
    let bits = table.add(Ty::Vector { of: bit, lanes: 4 })?;
    let none = table.add(Ty::Array { of: bit, count: 3 })?;
    let to_void = table.add(Ty::Pointer {
        class: Class::Generic,
        to: void,
    })?;
    let empty = table.add(Ty::Struct {
        members: Ids::from_vec(Vec::new(rt.alloc())),
        packed: false,
    })?;
    for id in [bit, void, bits, none, to_void] {
        assert!(rt; id.0 < 5);
        assert_eq!(rt; size_of(&table, id), None);
    }
    assert_eq!(rt;
        (size_of(&table, empty), align_of(&table, empty)),
        (Some(0), Some(1))
    );
    assert_eq!(rt;
        Ids::from_vec(vec![in rt.alloc(); empty]?)
            .into_vec()
            .as_slice(),
        [empty].as_slice()
    );
    layouts_are_aligned();
    layouts_come_from_parts();
    layouts_stay();
    steps_add_up();
    Ok(())
}
