ghost use Rattle.kern_lanes.specs.Widths.{IsLane};

use super::*;
use std::process::Abort;

/// A width, two lanes of it, and the result.
type Row = (Width, u64, u64, u64);

const WIDTHS: [Width; 5] = [Width::W1, Width::W8, Width::W16, Width::W32, Width::W64];

static SUMS: [Row; 10] = [
    (Width::W1, 1, 1, 0),
    (Width::W1, 0, 1, 1),
    (Width::W8, 255, 1, 0),
    (Width::W8, 127, 1, 128),
    (Width::W16, 65535, 1, 0),
    (Width::W16, 32767, 1, 32768),
    (Width::W32, 4294967295, 1, 0),
    (Width::W32, 2147483647, 1, 2147483648),
    (Width::W64, 18446744073709551615, 1, 0),
    (Width::W64, 9223372036854775807, 1, 9223372036854775808),
];

static DIFFERENCES: [Row; 10] = [
    (Width::W1, 0, 1, 1),
    (Width::W1, 1, 1, 0),
    (Width::W8, 0, 1, 255),
    (Width::W8, 128, 1, 127),
    (Width::W16, 0, 1, 65535),
    (Width::W16, 32768, 1, 32767),
    (Width::W32, 0, 1, 4294967295),
    (Width::W32, 2147483648, 1, 2147483647),
    (Width::W64, 0, 1, 18446744073709551615),
    (Width::W64, 9223372036854775808, 1, 9223372036854775807),
];

static PRODUCTS: [Row; 10] = [
    (Width::W1, 1, 1, 1),
    (Width::W1, 0, 1, 0),
    (Width::W8, 255, 255, 1),
    (Width::W8, 127, 255, 129),
    (Width::W16, 65535, 65535, 1),
    (Width::W16, 32767, 65535, 32769),
    (Width::W32, 4294967295, 4294967295, 1),
    (Width::W32, 2147483647, 4294967295, 2147483649),
    (Width::W64, 18446744073709551615, 18446744073709551615, 1),
    (
        Width::W64,
        9223372036854775807,
        18446744073709551615,
        9223372036854775809,
    ),
];

static UNSIGNED_QUOTIENTS: [Row; 9] = [
    (Width::W1, 1, 1, 1),
    (Width::W8, 255, 7, 36),
    (Width::W8, 128, 255, 0),
    (Width::W16, 65535, 15, 4369),
    (Width::W16, 32768, 65535, 0),
    (Width::W32, 4294967295, 31, 138547332),
    (Width::W32, 2147483648, 4294967295, 0),
    (Width::W64, 18446744073709551615, 63, 292805461487453200),
    (Width::W64, 9223372036854775808, 18446744073709551615, 0),
];

static SIGNED_QUOTIENTS: [Row; 9] = [
    (Width::W1, 0, 1, 0),
    (Width::W8, 129, 2, 193),
    (Width::W8, 127, 255, 129),
    (Width::W16, 32769, 2, 49153),
    (Width::W16, 32767, 65535, 32769),
    (Width::W32, 2147483649, 2, 3221225473),
    (Width::W32, 2147483647, 4294967295, 2147483649),
    (Width::W64, 9223372036854775809, 2, 13835058055282163713),
    (
        Width::W64,
        9223372036854775807,
        18446744073709551615,
        9223372036854775809,
    ),
];

static UNSIGNED_REMAINDERS: [Row; 9] = [
    (Width::W1, 1, 1, 0),
    (Width::W8, 255, 8, 7),
    (Width::W8, 128, 255, 128),
    (Width::W16, 65535, 16, 15),
    (Width::W16, 32768, 65535, 32768),
    (Width::W32, 4294967295, 32, 31),
    (Width::W32, 2147483648, 4294967295, 2147483648),
    (Width::W64, 18446744073709551615, 64, 63),
    (
        Width::W64,
        9223372036854775808,
        18446744073709551615,
        9223372036854775808,
    ),
];

static SIGNED_REMAINDERS: [Row; 13] = [
    (Width::W1, 0, 1, 0),
    (Width::W8, 255, 2, 255),
    (Width::W8, 127, 128, 127),
    (Width::W8, 129, 8, 249),
    (Width::W16, 65535, 2, 65535),
    (Width::W16, 32767, 32768, 32767),
    (Width::W16, 32769, 16, 65521),
    (Width::W32, 4294967295, 2, 4294967295),
    (Width::W32, 2147483647, 2147483648, 2147483647),
    (Width::W32, 2147483649, 32, 4294967265),
    (Width::W64, 18446744073709551615, 2, 18446744073709551615),
    (
        Width::W64,
        9223372036854775807,
        9223372036854775808,
        9223372036854775807,
    ),
    (Width::W64, 9223372036854775809, 64, 18446744073709551553),
];

static LEFT_SHIFTS: [Row; 9] = [
    (Width::W1, 1, 0, 1),
    (Width::W8, 255, 7, 128),
    (Width::W8, 127, 1, 254),
    (Width::W16, 65535, 15, 32768),
    (Width::W16, 32767, 1, 65534),
    (Width::W32, 4294967295, 31, 2147483648),
    (Width::W32, 2147483647, 1, 4294967294),
    (Width::W64, 18446744073709551615, 63, 9223372036854775808),
    (Width::W64, 9223372036854775807, 1, 18446744073709551614),
];

static LOGICAL_SHIFTS: [Row; 9] = [
    (Width::W1, 1, 0, 1),
    (Width::W8, 255, 7, 1),
    (Width::W8, 128, 1, 64),
    (Width::W16, 65535, 15, 1),
    (Width::W16, 32768, 1, 16384),
    (Width::W32, 4294967295, 31, 1),
    (Width::W32, 2147483648, 1, 1073741824),
    (Width::W64, 18446744073709551615, 63, 1),
    (Width::W64, 9223372036854775808, 1, 4611686018427387904),
];

static ARITHMETIC_SHIFTS: [Row; 14] = [
    (Width::W1, 1, 0, 1),
    (Width::W1, 0, 0, 0),
    (Width::W8, 128, 7, 255),
    (Width::W8, 127, 7, 0),
    (Width::W8, 128, 1, 192),
    (Width::W16, 32768, 15, 65535),
    (Width::W16, 32767, 15, 0),
    (Width::W16, 32768, 1, 49152),
    (Width::W32, 2147483648, 31, 4294967295),
    (Width::W32, 2147483647, 31, 0),
    (Width::W32, 2147483648, 1, 3221225472),
    (Width::W64, 9223372036854775808, 63, 18446744073709551615),
    (Width::W64, 9223372036854775807, 63, 0),
    (Width::W64, 9223372036854775808, 1, 13835058055282163712),
];

static CONJUNCTIONS: [Row; 2] = [
    (Width::W8, 255, 128, 128),
    (
        Width::W64,
        18446744073709551615,
        9223372036854775808,
        9223372036854775808,
    ),
];

static DISJUNCTIONS: [Row; 2] = [
    (Width::W8, 128, 127, 255),
    (
        Width::W64,
        9223372036854775808,
        9223372036854775807,
        18446744073709551615,
    ),
];

static EXCLUSIVE_DISJUNCTIONS: [Row; 2] = [
    (Width::W8, 255, 128, 127),
    (
        Width::W64,
        18446744073709551615,
        9223372036854775808,
        9223372036854775807,
    ),
];

/// The number as a lane: the tables hold numbers below 2 to the power of their width.
fn lane(w: Width, number: u64) -> u64
    ensures { IsLane w result }
{
    convert(Conv::Trunc, Width::W64, w, number)
}

fn check_rows(rt: &impl Abort, op: BinOp, rows: &[Row]) {
    for (w, a, b, want) in rows {
        assert_eq!(rt;
            bin(op, *w, lane(*w, *a), lane(*w, *b)),
            Ok(*want),
            "{op:?} of {a} and {b}"
        );
    }
}

#[test]
fn operations_at_the_edges_of_each_width(rt: HostRuntime) {
    check_rows(&rt, BinOp::Add, &SUMS);
    check_rows(&rt, BinOp::Sub, &DIFFERENCES);
    check_rows(&rt, BinOp::Mul, &PRODUCTS);
    check_rows(&rt, BinOp::UDiv, &UNSIGNED_QUOTIENTS);
    check_rows(&rt, BinOp::SDiv, &SIGNED_QUOTIENTS);
    check_rows(&rt, BinOp::URem, &UNSIGNED_REMAINDERS);
    check_rows(&rt, BinOp::SRem, &SIGNED_REMAINDERS);
    check_rows(&rt, BinOp::Shl, &LEFT_SHIFTS);
    check_rows(&rt, BinOp::LShr, &LOGICAL_SHIFTS);
    check_rows(&rt, BinOp::AShr, &ARITHMETIC_SHIFTS);
    check_rows(&rt, BinOp::And, &CONJUNCTIONS);
    check_rows(&rt, BinOp::Or, &DISJUNCTIONS);
    check_rows(&rt, BinOp::Xor, &EXCLUSIVE_DISJUNCTIONS);
}

#[test]
fn traps_at_each_width(rt: HostRuntime) {
    for w in WIDTHS {
        let ones = lane(w, u64::MAX);
        let least = lane(w, 1 << (w.bits() - 1));
        let bits = lane(w, u64::from(w.bits()));
        for op in [BinOp::UDiv, BinOp::SDiv, BinOp::URem, BinOp::SRem] {
            assert_eq!(rt; bin(op, w, least, lane(w, 0)), Err(Trap::DivZero));
        }
        for op in [BinOp::SDiv, BinOp::SRem] {
            assert_eq!(rt; bin(op, w, least, ones), Err(Trap::DivOverflow));
        }
        for op in [BinOp::Shl, BinOp::LShr, BinOp::AShr] {
            assert_eq!(rt; bin(op, w, ones, bits), Err(Trap::ShiftRange));
        }
    }
}

/// For each predicate what it says of -1 and 0, and of a number and itself.
const COMPARISONS: [(Pred, bool, bool); 10] = [
    (Pred::Eq, false, true),
    (Pred::Ne, true, false),
    (Pred::Ugt, true, false),
    (Pred::Uge, true, true),
    (Pred::Ult, false, false),
    (Pred::Ule, false, true),
    (Pred::Sgt, false, false),
    (Pred::Sge, false, true),
    (Pred::Slt, true, false),
    (Pred::Sle, true, true),
];

#[test]
fn comparisons_at_each_width(rt: HostRuntime) {
    for w in WIDTHS {
        let (zero, ones) = (lane(w, 0), lane(w, u64::MAX));
        for (p, below_zero, same) in COMPARISONS {
            assert_eq!(rt; cmp(p, w, ones, zero), below_zero, "{p:?} at {w:?}");
            assert_eq!(rt; cmp(p, w, ones, ones), same, "{p:?} at {w:?}");
        }
    }
}

/// A conversion, a width, another width, a lane of the first and one of the second.
static CONVERSIONS: [(Conv, Width, Width, u64, u64); 10] = [
    (Conv::Trunc, Width::W64, Width::W1, 18446744073709551615, 1),
    (Conv::Trunc, Width::W32, Width::W8, 305419904, 128),
    (Conv::Trunc, Width::W8, Width::W1, 254, 0),
    (Conv::Zext, Width::W8, Width::W64, 255, 255),
    (Conv::Zext, Width::W1, Width::W32, 1, 1),
    (Conv::Sext, Width::W1, Width::W8, 1, 255),
    (Conv::Sext, Width::W8, Width::W16, 128, 65408),
    (Conv::Sext, Width::W8, Width::W16, 127, 127),
    (
        Conv::Sext,
        Width::W32,
        Width::W64,
        2147483648,
        18446744071562067968,
    ),
    (Conv::Sext, Width::W64, Width::W16, 9223372036854775813, 5),
];

/// An atomic operation, and what it makes of -1 in memory with the operand 1, at 16 bits.
const ATOMICS: [(RmwOp, u64); 10] = [
    (RmwOp::Xchg, 1),
    (RmwOp::Add, 0),
    (RmwOp::Sub, 65534),
    (RmwOp::And, 1),
    (RmwOp::Or, 65535),
    (RmwOp::Xor, 65534),
    (RmwOp::Max, 1),
    (RmwOp::Min, 65535),
    (RmwOp::UMax, 65535),
    (RmwOp::UMin, 1),
];

#[test]
fn conversions_and_atomics(rt: HostRuntime) {
    for (kind, from, to, a, want) in CONVERSIONS.iter() {
        assert_eq!(rt;
            convert(*kind, *from, *to, lane(*from, *a)),
            *want,
            "{kind:?} of {a}"
        );
    }
    for (op, want) in ATOMICS {
        assert_eq!(rt; rmw(op, Width::W16, 65535, 1), want, "{op:?}");
    }
}

#[test]
fn lanes_are_regrouped_and_picked(rt: HostRuntime) {
    let mut halves = [0u64; 2];
    split(Width::W16, Width::W8, 0x1234, &mut halves);
    assert_eq!(rt; halves, [0x34, 0x12]);
    let mut bits = [0u64; 8];
    split(Width::W8, Width::W1, 0b1010_0001, &mut bits);
    assert_eq!(rt; bits, [1, 0, 0, 0, 0, 1, 0, 1]);
    let mut whole = [0u64; 1];
    split(Width::W64, Width::W64, u64::MAX, &mut whole);
    assert_eq!(rt; whole, [u64::MAX]);
    assert_eq!(rt; join(Width::W64, Width::W32, &[5, 7]), 7 * 4294967296 + 5);
    assert_eq!(rt; lane_of(&[4, 9], 1), Ok(9));
    assert_eq!(rt; lane_of(&[4, 9], 2), Err(Trap::LaneRange));
    assert_eq!(rt; Scope::Workgroup.number(), 2);
    traps_come_exactly();
    results_are_lanes();
    join_undoes_split();
    split_undoes_join();
}
