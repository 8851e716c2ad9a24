// Examples with values from the rules: k, i and j by division, or by the digits in base 8.
ghost use Rattle.std.specs.Prelude.{◌^◌, ◌≤◌};
ghost use Rattle.orders.specs.LoopOrder.{loop_at};
ghost use Rattle.orders.specs.LoopLaws.{loop_lawful};

use crate::codes::write_step_codes;
use crate::loop_order::LoopOrder;
use crate::order::Order;
use crate::recursive_order::RecursiveOrder;
use crate::size::{Size, site_count};
use crate::step::Step;
use faults::LayoutFault;
use std::test::Fail;

#[test]
fn sizes(rt: HostRuntime) -> Result<(), Fail> {
    let size = Size::new(3)?;
    assert_eq!(rt; size.exponent(), 3);
    assert_eq!(rt; size.sites(), 8);
    assert_eq!(rt; size.cells(), 64);
    assert_eq!(rt; size.steps(), 512);
    Ok(())
}

#[test]
fn loop_steps(rt: HostRuntime) -> Result<(), Fail> {
    let order = LoopOrder::new(2)?;
    assert_eq!(rt; order.exponent(), 2);
    assert_eq!(rt; order.step(45), Some(Step { i: 3, j: 1, k: 2 }));
    assert_eq!(rt; order.step(63), Some(Step { i: 3, j: 3, k: 3 }));
    assert_eq!(rt; order.step(64), None);
    Ok(())
}

// An order of a caller's own, which gives its exponent and its steps by number and nothing else.
#[derive(Clone, Copy)]
struct Own {
    exponent: u32,
    ghost small: { exponent ≤ 6 },
}

impl Order for Own {
    ghost log = { λ o. o.exponent };

    ghost at = { λ o. loop_at (2 ^ o.exponent) };

    ghost small = { λ o. o.small };

    ghost lawful = { λ o. loop_lawful (2 ^ o.exponent) };

    fn exponent(&self) -> u32 {
        self.exponent
    }

    fn step(&self, t: usize) -> Option<Step> {
        LoopOrder::new(self.exponent).unwrap().step(t)
    }
}

#[test]
fn an_order_of_a_callers_own(rt: HostRuntime) {
    let own = Own { exponent: 2 };
    assert_eq!(rt; own.size().sites(), 4);
    assert_eq!(rt; own.step(45), Some(Step { i: 3, j: 1, k: 2 }));
    assert_eq!(rt; own.steps().count(), 64);
    let behind: &dyn Order = &own;
    assert_eq!(rt; behind.exponent(), 2);
    assert_eq!(rt; behind.step(64), None);
}

#[test]
fn recursive_steps(rt: HostRuntime) -> Result<(), Fail> {
    let order = RecursiveOrder::new(2)?;
    assert_eq!(rt; order.exponent(), 2);
    assert_eq!(rt; order.step(10), Some(Step { i: 1, j: 2, k: 0 }));
    assert_eq!(rt; order.step(63), Some(Step { i: 0, j: 0, k: 3 }));
    assert_eq!(rt; order.step(64), None);
    assert_eq!(rt; order.steps().nth(10), order.step(10));
    assert_eq!(rt; order.steps().count(), 64);
    Ok(())
}

#[test]
fn exponent_seven_is_refused(rt: HostRuntime) {
    let mut cells = [9u32; 3];
    assert_eq!(rt; site_count(7).map_err(LayoutFault::number), Err(4));
    assert_eq!(rt; LoopOrder::new(7).map_err(LayoutFault::number), Err(4));
    assert_eq!(rt; RecursiveOrder::new(7).map_err(LayoutFault::number), Err(4));
    assert_eq!(rt;
        write_step_codes(7, &mut cells).map_err(LayoutFault::number),
        Err(4)
    );
    assert_eq!(rt; cells, [9u32; 3]);
}

#[test]
fn short_list_is_refused(rt: HostRuntime) {
    let mut cells = [9u32; 7];
    assert_eq!(rt;
        write_step_codes(1, &mut cells).map_err(LayoutFault::number),
        Err(5)
    );
    assert_eq!(rt; cells, [9u32; 7]);
}

#[test]
fn codes_are_the_steps(rt: HostRuntime) -> Result<(), Fail> {
    let mut cells = [9u32; 515];
    write_step_codes(3, &mut cells)?;
    let order = RecursiveOrder::new(3)?;
    for (t, code) in cells.iter().enumerate() {
        match order.step(t) {
            Some(s) => assert_eq!(rt; *code as usize, (s.i * 64 + s.j) * 64 + s.k),
            None => assert_eq!(rt; *code, 9),
        }
    }
    assert_eq!(rt; order.step(512), None);
    Ok(())
}
