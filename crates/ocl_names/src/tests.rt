use crate::{
    AtomicCall, AtomicOp, BarrierCall, Ordering, atomic_name, atomics_by_grammar, barrier_name,
    mask_of, name_of, numbers_and_names_agree, numbers_are_sums, order_of, read_scope,
    reading_undoes_writing, scope_text, scopes_come_back, tables_are_disjoint, words_are_read,
    work_item_name,
};
use kern_lanes::{RmwOp, Scope};
use std::test::Fail;

static WORK_ITEMS: [(&str, u32); 11] = [
    ("_Z14get_num_groupsj", 24),
    ("_Z14get_local_sizej", 25),
    ("_Z12get_group_idj", 26),
    ("_Z12get_local_idj", 27),
    ("_Z13get_global_idj", 28),
    ("_Z19get_local_linear_idv", 29),
    ("_Z12get_work_dimv", 30),
    ("_Z15get_global_sizej", 31),
    ("_Z23get_enqueued_local_sizej", 32),
    ("_Z17get_global_offsetj", 33),
    ("_Z20get_global_linear_idv", 34),
];

static BARRIERS: [(&str, BarrierCall); 7] = [
    ("_Z7barrierj", BarrierCall::Flags),
    ("_Z18work_group_barrierj", BarrierCall::Flags),
    (
        "_Z18work_group_barrierj12memory_scope",
        BarrierCall::FlagsScope,
    ),
    ("_Z22__spirv_ControlBarrierjjj", BarrierCall::Words),
    (
        "_Z9mem_fencej",
        BarrierCall::Fence(Ordering::AcquireRelease),
    ),
    ("_Z14read_mem_fencej", BarrierCall::Fence(Ordering::Acquire)),
    (
        "_Z15write_mem_fencej",
        BarrierCall::Fence(Ordering::Release),
    ),
];

// A name up to its parameters, how many letters follow the pointer, and the operation on int and on uint.
static ATOMICS: [(&str, usize, AtomicOp, AtomicOp); 11] = [
    (
        "_Z10atomic_add",
        2,
        AtomicOp::Rmw(RmwOp::Add),
        AtomicOp::Rmw(RmwOp::Add),
    ),
    (
        "_Z10atomic_sub",
        2,
        AtomicOp::Rmw(RmwOp::Sub),
        AtomicOp::Rmw(RmwOp::Sub),
    ),
    (
        "_Z11atomic_xchg",
        2,
        AtomicOp::Rmw(RmwOp::Xchg),
        AtomicOp::Rmw(RmwOp::Xchg),
    ),
    ("_Z10atomic_inc", 1, AtomicOp::Inc, AtomicOp::Inc),
    ("_Z10atomic_dec", 1, AtomicOp::Dec, AtomicOp::Dec),
    ("_Z14atomic_cmpxchg", 3, AtomicOp::Cas, AtomicOp::Cas),
    (
        "_Z10atomic_min",
        2,
        AtomicOp::Rmw(RmwOp::Min),
        AtomicOp::Rmw(RmwOp::UMin),
    ),
    (
        "_Z10atomic_max",
        2,
        AtomicOp::Rmw(RmwOp::Max),
        AtomicOp::Rmw(RmwOp::UMax),
    ),
    (
        "_Z10atomic_and",
        2,
        AtomicOp::Rmw(RmwOp::And),
        AtomicOp::Rmw(RmwOp::And),
    ),
    (
        "_Z9atomic_or",
        2,
        AtomicOp::Rmw(RmwOp::Or),
        AtomicOp::Rmw(RmwOp::Or),
    ),
    (
        "_Z10atomic_xor",
        2,
        AtomicOp::Rmw(RmwOp::Xor),
        AtomicOp::Rmw(RmwOp::Xor),
    ),
];

static POINTERS: [(&str, u32); 4] = [
    ("PU3AS1V", 1),
    ("PVU3AS1", 1),
    ("PU3AS3V", 3),
    ("PVU3AS3", 3),
];

// Texts that differ from a name by little.
static OTHER_NAMES: [&str; 31] = [
    "",
    "_Z",
    "get_global_id",
    "Z13get_global_idj",
    "_Z13get_global_id",
    "_Z13get_global_idi",
    "_Z13get_global_idjj",
    "_Z12get_global_idj",
    "_Z013get_global_idj",
    "_Z13get_global_ixj",
    "_Z12get_work_dimj",
    "_Z7barrier",
    "_Z8barrierj",
    "_Z7barrierj12memory_scope",
    "_Z18work_group_barrierj11memory_scope",
    "_Z22__spirv_ControlBarrierjj",
    "_Z9mem_fencev",
    "_Z10mem_fencej",
    "_Z10atomic_add",
    "_Z10atomic_addPU3AS1V",
    "_Z10atomic_addPU3AS1Vi",
    "_Z10atomic_addPU3AS1Vij",
    "_Z10atomic_addPU3AS1Viii",
    "_Z11atomic_addPU3AS1Vii",
    "_Z010atomic_addPU3AS1Vii",
    "_Z10atomic_addPU3AS2Vii",
    "_Z10atomic_addPU3AS1ii",
    "_Z10atomic_addPU3AS1Vll",
    "_Z14atomic_cmpxchgPU3AS1Vii",
    "_Z8atom_addPU3AS1Vii",
    "_Z16atomic_fetch_addPU3AS1Vii",
];

// A word, its scope, its storage bits, and whether it is written.
static WORDS: [(&str, Scope, u32, bool); 20] = [
    ("all_svm_devices", Scope::CrossDevice, 0x300, false),
    ("all_svm_devices-local", Scope::CrossDevice, 0x100, true),
    ("all_svm_devices-global", Scope::CrossDevice, 0x200, true),
    ("all_svm_devices-none", Scope::CrossDevice, 0, true),
    ("device", Scope::Device, 0x300, true),
    ("device-local", Scope::Device, 0x100, true),
    ("device-global", Scope::Device, 0x200, true),
    ("device-none", Scope::Device, 0, true),
    ("workgroup", Scope::Workgroup, 0x300, true),
    ("workgroup-local", Scope::Workgroup, 0x100, true),
    ("workgroup-global", Scope::Workgroup, 0x200, true),
    ("workgroup-none", Scope::Workgroup, 0, true),
    ("subgroup", Scope::Subgroup, 0x300, true),
    ("subgroup-local", Scope::Subgroup, 0x100, true),
    ("subgroup-global", Scope::Subgroup, 0x200, true),
    ("subgroup-none", Scope::Subgroup, 0, true),
    ("singlethread", Scope::Invocation, 0x300, true),
    ("singlethread-local", Scope::Invocation, 0x100, true),
    ("singlethread-global", Scope::Invocation, 0x200, true),
    ("singlethread-none", Scope::Invocation, 0, true),
];

static OTHER_WORDS: [&str; 8] = [
    "",
    "system",
    "agent",
    "all_svm_device",
    "devices",
    "device-",
    "device-locals",
    "Workgroup-local",
];

// The sums of the orders' bits, and the order of those that have at most one.
static ORDERS: [(u32, Option<Ordering>); 16] = [
    (0x0, Some(Ordering::Relaxed)),
    (0x2, Some(Ordering::Acquire)),
    (0x4, Some(Ordering::Release)),
    (0x6, None),
    (0x8, Some(Ordering::AcquireRelease)),
    (0xA, None),
    (0xC, None),
    (0xE, None),
    (0x10, Some(Ordering::SeqCst)),
    (0x12, None),
    (0x14, None),
    (0x16, None),
    (0x18, None),
    (0x1A, None),
    (0x1C, None),
    (0x1E, None),
];

#[test]
fn names_both_ways(rt: HostRuntime) {
    for (text, number) in WORK_ITEMS.iter().copied() {
        assert_eq!(rt; work_item_name(text), Some(number), "{text}");
        assert_eq!(rt; name_of(number), Some(text), "{text}");
    }
    for number in [0, 23, 35, u32::MAX] {
        assert!(rt; name_of(number).is_none(), "{number}");
    }
    for (text, call) in BARRIERS.iter().copied() {
        assert_eq!(rt; barrier_name(text), Some(call), "{text}");
    }
    for text in OTHER_NAMES.iter().copied() {
        assert_eq!(rt; work_item_name(text), None, "{text}");
        assert_eq!(rt; barrier_name(text), None, "{text}");
        assert_eq!(rt; atomic_name(text), None, "{text}");
    }
    numbers_and_names_agree();
    tables_are_disjoint();
}

#[test]
fn atomics(rt: HostRuntime) -> Result<(), Fail> {
    for (front, count, signed_op, unsigned_op) in ATOMICS.iter().copied() {
        for (pointer, space) in POINTERS.iter().copied() {
            for (letters, signed) in [("iii", true), ("jjj", false)] {
                let letters = letters.get(..count).ok_or("letters")?;
                let text = format!(in rt.alloc(); "{front}{pointer}{letters}")?;
                let op = if signed { signed_op } else { unsigned_op };
                let call = AtomicCall { op, space, signed };
                assert_eq!(rt; atomic_name(text.as_str()), Some(call), "{text}");
            }
        }
    }
    atomics_by_grammar();
    Ok(())
}

#[test]
fn scopes(rt: HostRuntime) {
    for (word, scope, bits, written) in WORDS.iter().copied() {
        assert_eq!(rt; read_scope(word), Some((scope, bits)), "{word}");
        let text = if written { Some(word) } else { None };
        for order in [0x2, 0x4, 0x8, 0x10] {
            assert_eq!(rt; scope_text(scope, order | bits), text, "{word}");
        }
        let no_order = scope_text(scope, bits);
        assert_eq!(rt; no_order, scope_text(scope, 0x310), "{word}");
    }
    for word in OTHER_WORDS.iter().copied() {
        assert_eq!(rt; read_scope(word), None, "{word}");
    }
    words_are_read();
    reading_undoes_writing();
    scopes_come_back();
}

#[test]
fn masks(rt: HostRuntime) {
    for (bits, order) in ORDERS.iter().copied() {
        for storage in 0..4u32 {
            let mask = bits | storage * 0x100;
            assert_eq!(rt;
                order_of(mask),
                order.map(|order| (order, storage * 0x100)),
                "{mask}"
            );
            for other in [0x1, 0x20, 0x40, 0x80, 0x400, 0x8000_0000] {
                assert_eq!(rt; order_of(mask | other), None, "{mask} {other}");
            }
        }
    }
    for storage in 0..4u32 {
        let bits = storage * 0x100;
        assert_eq!(rt; mask_of(Ordering::Relaxed, bits), 0);
        assert_eq!(rt; mask_of(Ordering::Acquire, bits), 0x2 + bits);
        assert_eq!(rt; mask_of(Ordering::Release, bits), 0x4 + bits);
        assert_eq!(rt; mask_of(Ordering::AcquireRelease, bits), 0x8 + bits);
        assert_eq!(rt; mask_of(Ordering::SeqCst, bits), 0x10 + bits);
    }
    numbers_are_sums();
}
