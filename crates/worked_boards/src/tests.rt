// Worked boards.
use board::draft::Draft;
use board::whole_way::whole_way;
use faults::{LayoutFault, LinkFault};
use kinds::cells::{Channels, Cost};
use kinds::kind::Kind;
use orders::loop_order::LoopOrder;
use orders::order::Order;
use orders::recursive_order::RecursiveOrder;
use std::test::Fail;

// Channels 0→1 = 3, 1→3 = 1, 0→2 = 6 and 2→3 = 4, settled with a relay word by an order: what the
// board shows from 0 to 3. The word is a plain number, as a settling takes it.
fn channels_shown<O: Order>(relays: u64, order: &O) -> Result<Channels, LinkFault> {
    let mut ground = [Channels::here(); 33];
    let mut draft = Draft::make(&mut ground, 2);
    draft.post(0, 1, Channels::new(3))?;
    draft.post(1, 3, Channels::new(1))?;
    draft.post(0, 2, Channels::new(6))?;
    draft.post(2, 3, Channels::new(4))?;
    let board = draft.settle(relays, order);
    board.ask(0, 3)
}

#[test]
fn channels_of_two_paths_are_united(rt: HostRuntime) -> Result<(), Fail> {
    assert_eq!(rt;
        channels_shown(6, &LoopOrder::new(2)?),
        Ok(Channels::new(5))
    );
    assert_eq!(rt;
        channels_shown(6, &RecursiveOrder::new(2)?),
        Ok(Channels::new(5))
    );
    assert_eq!(rt;
        channels_shown(2, &LoopOrder::new(2)?),
        Ok(Channels::new(1))
    );
    assert_eq!(rt;
        channels_shown(4, &LoopOrder::new(2)?),
        Ok(Channels::new(4))
    );
    assert_eq!(rt;
        channels_shown(0, &LoopOrder::new(2)?),
        Ok(Channels::new(0))
    );
    Ok(())
}

// The paths from 0 to 3 over the relays 1 and 2 that repeat no site. One that repeats a site has no
// channel more.
#[test]
fn no_single_path_has_the_union(rt: HostRuntime) {
    let none = Channels::none();
    let over_one = Channels::new(3).chain(Channels::new(1));
    let over_two = Channels::new(6).chain(Channels::new(4));
    let over_one_and_two = Channels::new(3).chain(none).chain(Channels::new(4));
    let over_two_and_one = Channels::new(6).chain(none).chain(Channels::new(1));
    assert_eq!(rt; (over_one, over_two), (Channels::new(1), Channels::new(4)));
    assert_eq!(rt; (over_one_and_two, over_two_and_one), (none, none));
    assert_eq!(rt; over_one.join(over_two), Channels::new(5));
}

#[test]
fn an_order_of_another_exponent_is_the_loop_order(rt: HostRuntime) -> Result<(), Fail> {
    assert_eq!(rt;
        channels_shown(6, &RecursiveOrder::new(3)?),
        Ok(Channels::new(5))
    );
    assert_eq!(rt;
        channels_shown(6, &LoopOrder::new(0)?),
        Ok(Channels::new(5))
    );
    Ok(())
}

#[test]
fn words_that_differ_from_bit_four_up(rt: HostRuntime) -> Result<(), Fail> {
    let order = RecursiveOrder::new(2)?;
    assert_eq!(rt; channels_shown(6 + 16, &order), Ok(Channels::new(5)));
    assert_eq!(rt;
        channels_shown(0xffff_ffff_ffff_fff2, &order),
        Ok(Channels::new(1))
    );
    Ok(())
}

#[test]
fn a_link_from_no_relay_leads_nowhere(rt: HostRuntime) -> Result<(), Fail> {
    let mut ground = [Cost::new(3); 32];
    let mut draft = Draft::make(&mut ground, 2);
    draft.post(0, 1, Cost::new(10))?;
    let mut board = draft.settle(0, &RecursiveOrder::new(2)?);
    board.post(1, 2, Cost::new(5))?;
    assert_eq!(rt; board.ask(0, 2), Ok(Cost::none()));
    assert_eq!(rt; board.ask(1, 2), Ok(Cost::new(5)));
    assert_eq!(rt; board.ask(2, 2), Ok(Cost::here()));
    assert_eq!(rt; board.count(), 2);
    Ok(())
}

// The widest board: 64 sites want 8192 cells.
#[test]
fn sizes_of_grounds(rt: HostRuntime) -> Result<(), Fail> {
    let mut cells = vec![in rt.alloc(); Cost::none(); 8192]?;
    let ground = cells.as_mut_slice();
    assert!(rt; ground.len() == 8192);
    assert_eq!(rt;
        Draft::can_make(&ground[0..8191], 6),
        Err(LayoutFault::SizeMismatch)
    );
    assert_eq!(rt;
        Draft::can_make(ground, 7),
        Err(LayoutFault::ExponentTooLarge)
    );
    assert_eq!(rt; Draft::can_make(ground, 6), Ok(()));
    let mut draft = Draft::make(ground, 6);
    draft.post(63, 0, Cost::new(8))?;
    draft.post(0, 62, Cost::new(1))?;
    let board = draft.settle(1, &RecursiveOrder::new(6)?);
    assert_eq!(rt; board.ask(63, 62), Ok(Cost::new(9)));
    assert_eq!(rt; board.ask(62, 63), Ok(Cost::none()));
    assert_eq!(rt; board.ask(64, 0), Err(LinkFault::SiteOutside));
    Ok(())
}

#[test]
fn a_board_without_sites(rt: HostRuntime) -> Result<(), Fail> {
    let mut ground = [Cost::new(3); 31];
    let mut draft = Draft::make(&mut ground, 2);
    assert_eq!(rt; draft.post(0, 1, Cost::new(1)), Err(LinkFault::SiteOutside));
    assert_eq!(rt; draft.withdraw(0, 1), Err(LinkFault::SiteOutside));
    assert_eq!(rt; draft.count(), 0);
    let board = draft.settle(3, &RecursiveOrder::new(2)?);
    assert_eq!(rt; board.ask(0, 0), Err(LinkFault::SiteOutside));
    let cells = board.end();
    assert!(rt; cells.len() == 31);
    assert_eq!(rt; (cells[0], cells[30]), (Cost::new(3), Cost::new(3)));
    Ok(())
}

#[test]
fn the_whole_way(rt: HostRuntime) {
    let answers = whole_way();
    assert_eq!(rt; answers.same_site, Err(LinkFault::SameSite));
    assert_eq!(rt; answers.settled, Ok(Cost::new(15)));
    assert_eq!(rt; answers.improved, Ok(Cost::new(9)));
    assert_eq!(rt; answers.settled_again, Ok(Cost::new(15)));
}

#[test]
fn refusals_in_their_order(rt: HostRuntime) -> Result<(), Fail> {
    let mut ground = [Cost::new(3); 32];
    let mut draft = Draft::make(&mut ground, 2);
    assert_eq!(rt; draft.post(4, 4, Cost::new(1)), Err(LinkFault::SiteOutside));
    assert_eq!(rt; draft.post(2, 2, Cost::new(1)), Err(LinkFault::SameSite));
    assert_eq!(rt; draft.withdraw(9, 9), Err(LinkFault::SiteOutside));
    assert_eq!(rt; draft.withdraw(1, 1), Err(LinkFault::SameSite));
    assert_eq!(rt; draft.withdraw(0, 1), Err(LinkFault::NoLink));
    draft.post(0, 1, Cost::new(1))?;
    assert_eq!(rt; draft.withdraw(1, 0), Err(LinkFault::NoLink));
    draft.withdraw(0, 1)?;
    assert_eq!(rt; draft.count(), 0);
    Ok(())
}

#[test]
fn later_cells_stay(rt: HostRuntime) -> Result<(), Fail> {
    let mut ground = [Cost::new(3); 10];
    let mut draft = Draft::make(&mut ground, 1);
    draft.post(0, 1, Cost::new(8))?;
    draft.post(0, 1, Cost::new(6))?;
    let mut board = draft.settle(3, &RecursiveOrder::new(1)?);
    board.post(1, 0, Cost::new(2))?;
    let cells = board.end();
    assert!(rt; cells.len() == 10);
    assert_eq!(rt; (cells[0], cells[1]), (Cost::here(), Cost::new(6)));
    assert_eq!(rt; (cells[2], cells[3]), (Cost::new(2), Cost::here()));
    assert_eq!(rt; (cells[5], cells[6]), (Cost::new(6), Cost::new(2)));
    assert_eq!(rt; (cells[8], cells[9]), (Cost::new(3), Cost::new(3)));
    Ok(())
}
