ghost use Rattle.std.specs.Prelude.{◌≡◌, IfOk};
ghost use Rattle.std.specs.String.{string_bytes};
ghost use Rattle.kern_events.specs.Texts.{text_of, cas_text, place_text};

use crate::bytes::Init;
use crate::event::Event;
use crate::lanes::Lanes;
use crate::parts::{
    Target, access_text, init_text, numbers_text, order_text, orders_text, target_text,
};
use crate::words::{class_word, op_word};
use kern_lanes::{RmwOp, Scope};
use kern_types::Class;
use ports::OutOfMemory;
use std::alloc::Global;

/// The line of an event, without a line feed: numbers in decimal, lanes with commas between them.
pub fn event_text(alloc: Global, e: &Event) -> Result<String, OutOfMemory>
    ensures { IfOk result (λ text. string_bytes text ≡ text_of e.now) }
{
    match e {
        Event::Place {
            class,
            size,
            align,
            init,
            answer,
        } => { place_line(alloc, *class, *size, *align, init, *answer) }
        Event::Alloc {
            size,
            align,
            answer,
        } => alloc_line(alloc, *size, *align, *answer),
        Event::Load {
            class,
            address,
            width,
            align,
            volatile,
            lanes,
        } => {
            load_line(
                alloc,
                Target {
                    class: *class,
                    address: *address,
                    width: *width,
                },
                *align,
                *volatile,
                lanes,
            )
        }
        Event::Store {
            class,
            address,
            width,
            align,
            volatile,
            lanes,
        } => {
            store_line(
                alloc,
                Target {
                    class: *class,
                    address: *address,
                    width: *width,
                },
                *align,
                *volatile,
                lanes,
            )
        }
        Event::AtomicLoad {
            class,
            address,
            width,
            scope,
            mask,
            answer,
        } => {
            atomic_load_line(
                alloc,
                Target {
                    class: *class,
                    address: *address,
                    width: *width,
                },
                *scope,
                *mask,
                *answer,
            )
        }
        Event::AtomicStore {
            class,
            address,
            width,
            scope,
            mask,
            value,
        } => {
            atomic_store_line(
                alloc,
                Target {
                    class: *class,
                    address: *address,
                    width: *width,
                },
                *scope,
                *mask,
                *value,
            )
        }
        Event::Rmw {
            op,
            class,
            address,
            width,
            scope,
            mask,
            value,
            answer,
        } => {
            rmw_line(
                alloc,
                *op,
                Target {
                    class: *class,
                    address: *address,
                    width: *width,
                },
                *scope,
                *mask,
                *value,
                *answer,
            )
        }
        Event::Cas {
            class,
            address,
            width,
            scope,
            equal,
            unequal,
            value,
            comparator,
            answer,
        } => {
            let orders = orders_text(alloc, *scope, *equal, *unequal)?;
            cas_line(
                alloc,
                Target {
                    class: *class,
                    address: *address,
                    width: *width,
                },
                orders.as_str(),
                *value,
                *comparator,
                *answer,
            )
        }
        Event::Fence { scope, mask } => fence_line(alloc, *scope, *mask),
        Event::Barrier {
            execution,
            memory,
            mask,
        } => barrier_line(alloc, *execution, *memory, *mask),
    }
}

fn place_line(
    alloc: Global,
    class: Class,
    size: u64,
    align: u64,
    init: &Init,
    answer: u64,
) -> Result<String, OutOfMemory>
    ensures { IfOk result (λ text. string_bytes text ≡ text_of (Event.Place class size align init.now answer)) }
{
    let class = class_word(class);
    let init = init_text(alloc, init)?;
    Ok(format!(in alloc; "place {class} {size} {align} {init} -> {answer}")?)
}

fn alloc_line(alloc: Global, size: u64, align: u64, answer: u64) -> Result<String, OutOfMemory>
    ensures { IfOk result (λ text. string_bytes text ≡ text_of (Event.Alloc size align answer)) }
{
    Ok(format!(in alloc; "alloc {size} {align} -> {answer}")?)
}

fn load_line(
    alloc: Global,
    target: Target,
    align: u64,
    volatile: bool,
    lanes: &Lanes,
) -> Result<String, OutOfMemory>
    ensures { IfOk result (λ text.
        string_bytes text ≡ text_of (Event.Load target.class target.address target.width align volatile lanes.now)) }
{
    let place = target_text(alloc, target)?;
    let access = access_text(alloc, lanes, align, volatile)?;
    let values = numbers_text(alloc, lanes)?;
    Ok(format!(in alloc; "load {place} {access} -> {values}")?)
}

fn store_line(
    alloc: Global,
    target: Target,
    align: u64,
    volatile: bool,
    lanes: &Lanes,
) -> Result<String, OutOfMemory>
    ensures { IfOk result (λ text.
        string_bytes text ≡ text_of (Event.Store target.class target.address target.width align volatile lanes.now)) }
{
    let place = target_text(alloc, target)?;
    let access = access_text(alloc, lanes, align, volatile)?;
    let values = numbers_text(alloc, lanes)?;
    Ok(format!(in alloc; "store {place} {access} {values}")?)
}

fn atomic_load_line(
    alloc: Global,
    target: Target,
    scope: Scope,
    mask: u32,
    answer: u64,
) -> Result<String, OutOfMemory>
    ensures { IfOk result (λ text.
        string_bytes text ≡ text_of (Event.AtomicLoad target.class target.address target.width scope mask answer)) }
{
    let place = target_text(alloc, target)?;
    let order = order_text(alloc, scope, mask)?;
    Ok(format!(in alloc; "atomic_load {place} {order} -> {answer}")?)
}

fn atomic_store_line(
    alloc: Global,
    target: Target,
    scope: Scope,
    mask: u32,
    value: u64,
) -> Result<String, OutOfMemory>
    ensures { IfOk result (λ text.
        string_bytes text ≡ text_of (Event.AtomicStore target.class target.address target.width scope mask value)) }
{
    let place = target_text(alloc, target)?;
    let order = order_text(alloc, scope, mask)?;
    Ok(format!(in alloc; "atomic_store {place} {order} {value}")?)
}

fn rmw_line(
    alloc: Global,
    op: RmwOp,
    target: Target,
    scope: Scope,
    mask: u32,
    value: u64,
    answer: u64,
) -> Result<String, OutOfMemory>
    ensures { IfOk result (λ text.
        string_bytes text ≡ text_of (Event.Rmw op target.class target.address target.width scope mask value answer)) }
{
    let op = op_word(op);
    let place = target_text(alloc, target)?;
    let order = order_text(alloc, scope, mask)?;
    Ok(format!(in alloc; "rmw {op} {place} {order} {value} -> {answer}")?)
}

fn cas_line(
    alloc: Global,
    target: Target,
    orders: &str,
    value: u64,
    comparator: u64,
    answer: u64,
) -> Result<String, OutOfMemory>
    ensures { IfOk result (λ text. string_bytes text ≡ cas_text (place_text target.class target.address target.width) orders.now value comparator answer) }
{
    let place = target_text(alloc, target)?;
    Ok(format!(in alloc; "cas {place} {orders} {value} cmp {comparator} -> {answer}")?)
}

fn fence_line(alloc: Global, scope: Scope, mask: u32) -> Result<String, OutOfMemory>
    ensures { IfOk result (λ text. string_bytes text ≡ text_of (Event.Fence scope mask)) }
{
    let order = order_text(alloc, scope, mask)?;
    Ok(format!(in alloc; "fence {order}")?)
}

fn barrier_line(
    alloc: Global,
    execution: Scope,
    memory: Scope,
    mask: u32,
) -> Result<String, OutOfMemory>
    ensures { IfOk result (λ text. string_bytes text ≡ text_of (Event.Barrier execution memory mask)) }
{
    let execution = execution.number();
    let order = order_text(alloc, memory, mask)?;
    Ok(format!(in alloc; "barrier {execution} {order}")?)
}
