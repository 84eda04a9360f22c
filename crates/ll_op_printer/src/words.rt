ghost use Rattle.std.specs.Prelude.{◌≡◌};
ghost use Rattle.ll_parser.specs.GrammarAttributes.{attribute_word};
ghost use Rattle.ll_parser.specs.GrammarInsts.{binary_word, flag_word, order_word, predicate_word, rmw_word};
ghost use Rattle.ll_parser.specs.GrammarItems.{target_word};
ghost use Rattle.ll_parser.specs.GrammarValues.{cast_word};

use kern_lanes::{BinOp, Pred, RmwOp};
use ll_tree::{AttributeKind, CastKind, FlagWord, Order, TargetKind};

pub fn binary_word(op: BinOp) -> &'static str
    ensures { result.now ≡ binary_word op }
{
    match op {
        BinOp::Add => "add",
        BinOp::Sub => "sub",
        BinOp::Mul => "mul",
        BinOp::UDiv => "udiv",
        BinOp::SDiv => "sdiv",
        BinOp::URem => "urem",
        BinOp::SRem => "srem",
        BinOp::Shl => "shl",
        BinOp::LShr => "lshr",
        BinOp::AShr => "ashr",
        BinOp::And => "and",
        BinOp::Or => "or",
        BinOp::Xor => "xor",
    }
}

pub fn flag_word(flag: FlagWord) -> &'static str
    ensures { result.now ≡ flag_word flag }
{
    match flag {
        FlagWord::Nuw => "nuw",
        FlagWord::Nsw => "nsw",
        FlagWord::Exact => "exact",
    }
}

pub fn predicate_word(predicate: Pred) -> &'static str
    ensures { result.now ≡ predicate_word predicate }
{
    match predicate {
        Pred::Eq => "eq",
        Pred::Ne => "ne",
        Pred::Ugt => "ugt",
        Pred::Uge => "uge",
        Pred::Ult => "ult",
        Pred::Ule => "ule",
        Pred::Sgt => "sgt",
        Pred::Sge => "sge",
        Pred::Slt => "slt",
        Pred::Sle => "sle",
    }
}

pub fn cast_word(kind: CastKind) -> &'static str
    ensures { result.now ≡ cast_word kind }
{
    match kind {
        CastKind::Trunc => "trunc",
        CastKind::Zext => "zext",
        CastKind::Sext => "sext",
        CastKind::PtrToInt => "ptrtoint",
        CastKind::IntToPtr => "inttoptr",
        CastKind::Bitcast => "bitcast",
        CastKind::AddrSpaceCast => "addrspacecast",
    }
}

pub fn rmw_word(op: RmwOp) -> &'static str
    ensures { result.now ≡ rmw_word op }
{
    match op {
        RmwOp::Xchg => "xchg",
        RmwOp::Add => "add",
        RmwOp::Sub => "sub",
        RmwOp::And => "and",
        RmwOp::Or => "or",
        RmwOp::Xor => "xor",
        RmwOp::Max => "max",
        RmwOp::Min => "min",
        RmwOp::UMax => "umax",
        RmwOp::UMin => "umin",
    }
}

pub fn order_word(order: Order) -> &'static str
    ensures { result.now ≡ order_word order }
{
    match order {
        Order::Monotonic => "monotonic",
        Order::Acquire => "acquire",
        Order::Release => "release",
        Order::AcqRel => "acq_rel",
        Order::SeqCst => "seq_cst",
    }
}

pub fn attribute_word(kind: &AttributeKind) -> &'static str
    ensures { result.now ≡ attribute_word kind.now }
{
    match kind {
        AttributeKind::ZeroExt => "zeroext",
        AttributeKind::SignExt => "signext",
        AttributeKind::NoAlias => "noalias",
        AttributeKind::NoCapture => "nocapture",
        AttributeKind::ReadOnly => "readonly",
        AttributeKind::ReadNone => "readnone",
        AttributeKind::WriteOnly => "writeonly",
        AttributeKind::NoUndef => "noundef",
        AttributeKind::NonNull => "nonnull",
        AttributeKind::InReg => "inreg",
        AttributeKind::Returned => "returned",
        AttributeKind::NoFree => "nofree",
        AttributeKind::ImmArg => "immarg",
        AttributeKind::ByVal(_) => "byval",
        AttributeKind::SRet(_) => "sret",
        AttributeKind::Align(_) => "align",
        AttributeKind::Dereferenceable(_) => "dereferenceable",
        AttributeKind::DereferenceableOrNull(_) => "dereferenceable_or_null",
    }
}

pub fn target_word(kind: TargetKind) -> &'static str
    ensures { result.now ≡ target_word kind }
{
    match kind {
        TargetKind::DataLayout => "datalayout",
        TargetKind::Triple => "triple",
    }
}
