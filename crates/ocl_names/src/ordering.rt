ghost use Rattle.std.specs.Prelude.{◌≡◌, ◌⊎◌, ◌↔◌, IsNone, IfSome};
ghost use Rattle.ocl_names.specs.Orders.{order_number, order_mask, order_with, order_parts, IsStorage, HasTwoOrders, HasOtherBits};

use crate::storage::STORAGE;

/// What an atomic or a fence orders (SPIR-V 1.2, 3.25; LLVM 14, "Atomic Memory Ordering Constraints").
#[derive(Clone, Copy, Debug, PartialEq, Eq, Hash)]
pub enum Ordering {
    /// No order bit; `monotonic` in LLVM.
    Relaxed,
    Acquire,
    Release,
    AcquireRelease,
    SeqCst,
}

static ORDERS: [Ordering; 5] = [
    Ordering::Relaxed,
    Ordering::Acquire,
    Ordering::Release,
    Ordering::AcquireRelease,
    Ordering::SeqCst,
];

impl Ordering {
    /// The order's bit in a memory semantics number, 0 for `Relaxed`.
    fn number(self) -> u32
        ensures { result ≡ order_number self }
    {
        match self {
            Ordering::Relaxed => 0x0,
            Ordering::Acquire => 0x2,
            Ordering::Release => 0x4,
            Ordering::AcquireRelease => 0x8,
            Ordering::SeqCst => 0x10,
        }
    }

    /// The order of this bit.
    fn from_bit(bit: u32) -> Option<Ordering>
        ensures { result ≡ order_with bit }
    {
        ORDERS.iter().copied().find(|order| order.number() == bit)
    }
}

/// The memory semantics number (SPIR-V 1.2, 3.25) of an order on the storage of these bits: the order's bit
/// and the storage bits, and 0 for `Relaxed`, which orders no storage.
pub fn mask_of(order: Ordering, bits: u32) -> u32
    requires { IsStorage bits }
    ensures { result ≡ order_mask order bits }
{
    match order {
        Ordering::Relaxed => 0,
        _ => order.number() + bits,
    }
}

/// The order and the storage bits of a memory semantics number (SPIR-V 1.2, 3.25); None exactly for one that
/// has the bits of two orders, or a bit that is neither an order's nor 0x100 (local) nor 0x200 (global).
#[tactic(auto, using(crate::proofs::OrderLemmas::storage_le, crate::proofs::OrderLemmas::storage_part), unfolding(crate::specs::Orders::order_parts))]
pub fn order_of(mask: u32) -> Option<(Ordering, u32)>
    ensures value { result ≡ order_parts mask }
    ensures none { IsNone result ↔ (HasTwoOrders mask ⊎ HasOtherBits mask) }
    ensures storage { IfSome result (λ parts. IsStorage parts.1) }
{
    let bits = mask & STORAGE;
    Ordering::from_bit(mask - bits).map(|order| (order, bits))
}
