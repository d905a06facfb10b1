//! Whether calls that aren't parallel have rising numbers.

ghost use Rattle.std.specs.Prelude.{IfSome, Some, true, ◌<◌, ◌≡◌};
ghost use Rattle.argus_workers.specs.Order.{InOrder, MayComeNext};

use crate::arm_number::ArmNumber;
use crate::made_call::MadeCall;

// The least numbers that the next call may have, after the calls so far.
#[derive(Clone, Copy)]
struct Order {
    // The arm of the last call.
    arm: Option<ArmNumber>,
    // Of a call in this arm, in a later arm of the same coenter, and in any other place.
    within: u128,
    beside: u128,
    elsewhere: u128,
}

/// Whether of two calls that aren't parallel the earlier always has the lower number. Its time
/// grows with the number of calls.
pub(crate) fn in_order(calls: &[MadeCall]) -> bool
    ensures { result ≡ true → InOrder calls.now }
{
    let mut order = Order {
        arm: None,
        within: 0,
        beside: 0,
        elsewhere: 0,
    };
    for call in calls {
        match next_order(order, *call) {
            Some(next) => order = next,
            None => return false,
        }
    }
    true
}

// The order with one more call, if it may come next.
fn next_order(order: Order, call: MadeCall) -> Option<Order>
    ensures { IfSome result (λ next. MayComeNext order call next) }
{
    match (order.arm, call.arm) {
        (Some(last), Some(arm)) if last.coenter == arm.coenter => {
            next_in_coenter(order, last, arm, call.at)
        }
        (Some(_), Some(_)) | (Some(_), None) | (None, _) => next_elsewhere(order, call),
    }
}

fn next_elsewhere(order: Order, call: MadeCall) -> Option<Order>
    ensures { IfSome result (λ next. MayComeNext order call next) }
{
    let number = u128::from(call.at);
    if number < order.elsewhere {
        return None;
    }
    Some(Order {
        arm: call.arm,
        within: number + 1,
        beside: order.elsewhere,
        elsewhere: number + 1,
    })
}

fn next_in_coenter(order: Order, last: ArmNumber, arm: ArmNumber, at: u64) -> Option<Order>
    requires last { order.arm ≡ Some last }
    requires same { last.coenter ≡ arm.coenter }
    ensures { IfSome result (λ next. MayComeNext order (record { arm = Some arm; at = at }) next) }
{
    let number = u128::from(at);
    if arm.arm < last.arm {
        return None;
    }
    let least = if arm.arm == last.arm {
        order.within
    } else {
        order.beside
    };
    if number < least {
        return None;
    }
    Some(Order {
        arm: Some(arm),
        within: number + 1,
        beside: order.beside,
        elsewhere: order.elsewhere.max(number + 1),
    })
}
