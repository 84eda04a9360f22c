use super::*;
use kern_lanes::{RmwOp, Scope, Width};
use kern_types::Class;
use std::test::Fail;

#[test]
fn lines_of_memory_events(rt: HostRuntime) -> Result<(), Fail> {
    let bytes = InitBytes::from_vec(vec![in rt.alloc(); 1u8, 0, 0xfe, 0xff]?);
    let place = Event::Place {
        class: Class::Constant,
        size: 4,
        align: 2,
        init: Init::Bytes(bytes),
        answer: 512,
    };
    assert_eq!(rt;
        event_text(rt.alloc(), &place)?.as_str(),
        "place constant 4 2 0100feff -> 512"
    );
    let zero = Event::Place {
        class: Class::Global,
        size: 2,
        align: 1,
        init: Init::Bytes(InitBytes::from_vec(vec![in rt.alloc(); 0u8, 0]?)),
        answer: 7,
    };
    assert_eq!(rt;
        event_text(rt.alloc(), &zero)?.as_str(),
        "place global 2 1 zero -> 7"
    );
    let store = Event::Store {
        class: Class::Global,
        address: 4112,
        width: Width::W32,
        align: 16,
        volatile: false,
        lanes: Lanes::new(&[0, 0, 0]),
    };
    assert_eq!(rt;
        event_text(rt.alloc(), &store)?.as_str(),
        "store global 4112 i32 3 align 16 0,0,0"
    );
    let load = Event::Load {
        class: Class::Private,
        address: 8,
        width: Width::W64,
        align: 8,
        volatile: true,
        lanes: Lanes::new(&[7]),
    };
    assert_eq!(rt;
        event_text(rt.alloc(), &load)?.as_str(),
        "load private 8 i64 1 align 8 volatile -> 7"
    );
    Ok(())
}

#[test]
fn lines_of_other_events(rt: HostRuntime) -> Result<(), Fail> {
    let local = Event::Place {
        class: Class::Local,
        size: 64,
        align: 4,
        init: Init::Nothing,
        answer: 4096,
    };
    assert_eq!(rt;
        event_text(rt.alloc(), &local)?.as_str(),
        "place local 64 4 none -> 4096"
    );
    let rmw = Event::Rmw {
        op: RmwOp::Add,
        class: Class::Global,
        address: 64,
        width: Width::W32,
        scope: Scope::Device,
        mask: 0,
        value: 5,
        answer: 7,
    };
    assert_eq!(rt;
        event_text(rt.alloc(), &rmw)?.as_str(),
        "rmw add global 64 i32 scope 1 mask 0 5 -> 7"
    );
    let cas = Event::Cas {
        class: Class::Local,
        address: 8,
        width: Width::W32,
        scope: Scope::Workgroup,
        equal: 264,
        unequal: 0,
        value: 1,
        comparator: 2,
        answer: 3,
    };
    assert_eq!(rt;
        event_text(rt.alloc(), &cas)?.as_str(),
        "cas local 8 i32 scope 2 equal 264 unequal 0 1 cmp 2 -> 3"
    );
    let barrier = Event::Barrier {
        execution: Scope::Workgroup,
        memory: Scope::Workgroup,
        mask: 784,
    };
    assert_eq!(rt;
        event_text(rt.alloc(), &barrier)?.as_str(),
        "barrier 2 scope 2 mask 784"
    );
    assert_eq!(rt;
        outcome_text(Outcome::Fault(FaultKind::DivZero)),
        "fault div_zero"
    );
    Ok(())
}

#[test]
fn number_lists(rt: HostRuntime) -> Result<(), Fail> {
    for (text, place) in [
        ("", 0),
        ("1,", 2),
        ("18446744073709551616", 19),
        ("1,,2", 2),
        ("+1", 0),
        ("1 ", 1),
    ] {
        let refused =
            matches!(read_numbers(rt.alloc(), text), Err(NumbersError::Number { place: at }) if at == place);
        assert!(rt; refused, "{text}");
    }
    let numbers = read_numbers(rt.alloc(), "4096,5,007,18446744073709551615")?;
    assert_eq!(rt; numbers.as_slice(), [4096, 5, 7, u64::MAX].as_slice());
    Ok(())
}

#[test]
fn lists_that_a_work_item_is_given(rt: HostRuntime) -> Result<(), Fail> {
    let item = Item::new(&[3, 4]);
    assert_eq!(rt; (item.at(0), item.at(1), item.at(26)), (3, 4, 0));
    let lanes = Lanes::new(&[5, 6]);
    assert_eq!(rt; lanes.count(), 2);
    assert_eq!(rt; Lanes::new(&[5, 6]).at(1), 6);
    let inputs = Inputs {
        item,
        args: Numbers::from_vec(vec![in rt.alloc(); 9]?),
        answers: Numbers::from_vec(Vec::new(rt.alloc())),
    };
    assert_eq!(rt; inputs.args.as_slice().len(), 1);
    assert_eq!(rt; inputs.answers.into_vec().len(), 0);
    Ok(())
}
