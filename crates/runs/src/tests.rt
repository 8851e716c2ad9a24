// Worked cases of the rules, the sets and the refusals.
use crate::all_steps::AllSteps;
use crate::careful::careful_run;
use crate::in_place::{run_in_place, run_loop};
use crate::relays::Relays;
use crate::rule::Rule;
use crate::sum::Sum;
use crate::sure::{Delivery, Sure};
use crate::update_set::UpdateSet;
use faults::LayoutFault;
use orders::recursive_order::RecursiveOrder;
use orders::step::Step;
use std::test::Fail;

fn delivery(fraction: f64, delay: f64) -> Delivery {
    Delivery { fraction, delay }
}

// Deliveries of two links after one another: 0.5 · 0.75 arrive, after 2 + 4.
fn over_two_links(x: Delivery) -> Delivery {
    let u = delivery(0.5, 2.0);
    let v = delivery(0.75, 4.0);
    Sure.apply(x, u, v, v)
}

#[test]
fn sure_takes_the_larger_fraction(rt: HostRuntime) {
    let r = over_two_links(delivery(0.25, 1.0));
    assert_eq!(rt; r, delivery(0.375, 6.0));
}

#[test]
fn sure_keeps_an_equal_fraction(rt: HostRuntime) {
    let r = over_two_links(delivery(0.375, 9.0));
    assert_eq!(rt; r, delivery(0.375, 9.0));
}

// Four sites with links from 0 to 1, from 1 to 2 and a worse one from 0 to 2.
#[test]
fn careful_run_over_deliveries(rt: HostRuntime) -> Result<(), Fail> {
    let order = RecursiveOrder::new(2)?;
    let lost = delivery(0.0, 0.0);
    let mut table = [lost; 16];
    table[1] = delivery(0.5, 2.0);
    table[6] = delivery(0.75, 4.0);
    table[2] = delivery(0.25, 1.0);
    let mut u0 = [lost; 16];
    let mut u1 = [lost; 16];
    let mut v0 = [lost; 16];
    let mut v1 = [lost; 16];
    careful_run(
        &Sure, &AllSteps, &order, &mut table, &mut u0, &mut u1, &mut v0, &mut v1,
    )?;
    assert_eq!(rt; table[2], delivery(0.375, 6.0));
    assert_eq!(rt; table[1], delivery(0.5, 2.0));
    assert_eq!(rt; table[3], lost);
    Ok(())
}

#[test]
fn relays_are_the_bits_of_a_word(rt: HostRuntime) {
    let relays = Relays { word: 9 };
    assert!(rt; relays.has(Step { i: 1, j: 1, k: 0 }));
    assert!(rt; relays.has(Step { i: 0, j: 0, k: 3 }));
    assert!(rt; !relays.has(Step { i: 0, j: 3, k: 1 }));
    assert!(rt; !relays.has(Step { i: 0, j: 0, k: 64 }));
    assert!(rt; relays.includes(3) && !relays.includes(2) && !relays.includes(67));
}

#[test]
fn sizes_that_do_not_fit_are_refused(rt: HostRuntime) -> Result<(), Fail> {
    let order = RecursiveOrder::new(1)?;
    let mut table = [5, 6, 7];
    assert_eq!(rt;
        run_in_place(&Sum, &AllSteps, &order, &mut table),
        Err(LayoutFault::SizeMismatch)
    );
    assert_eq!(rt;
        run_loop(&Sum, &AllSteps, 7, &mut table),
        Err(LayoutFault::ExponentTooLarge)
    );
    assert_eq!(rt; table, [5, 6, 7]);
    Ok(())
}

#[test]
fn a_short_side_table_is_refused(rt: HostRuntime) -> Result<(), Fail> {
    let order = RecursiveOrder::new(1)?;
    let mut table = [0, 0, 0, 1];
    let mut u0 = [2; 4];
    let mut u1 = [3; 4];
    let mut v0 = [4; 4];
    let mut v1 = [5; 3];
    let r = careful_run(
        &Sum, &AllSteps, &order, &mut table, &mut u0, &mut u1, &mut v0, &mut v1,
    );
    assert_eq!(rt; r, Err(LayoutFault::SizeMismatch));
    assert_eq!(rt; (table, u0, u1), ([0, 0, 0, 1], [2; 4], [3; 4]));
    assert_eq!(rt; (v0, v1), ([4; 4], [5; 3]));
    Ok(())
}
