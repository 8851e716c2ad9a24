// The life of a board of four mirrors, and a second board that goes another way.
use crate::failure::Failure;
use board::draft::Draft;
use board::settled::Settled;
use faults::LinkFault;
use kinds::cells::Cost;
use kinds::kind::Kind;
use mirrors::Mirror::{Bergen, Geneva, Kyoto, Lima};
use mirrors::{CostTable, Heading, Mirror};
use orders::loop_order::LoopOrder;
use orders::recursive_order::RecursiveOrder;
use std::io;

// Four mirrors are 2^2.
const EXPONENT: u32 = 2;

// A site that the board has not, so no mirror.
const OUTSIDE: usize = 4;

// Geneva and Kyoto as relays. By `as`: a const can't call `site`.
const RELAYS: u64 = (1 << Geneva as u32) | (1 << Kyoto as u32);

// Sites from 4 up, which the board has not, as relays.
const RELAYS_OUTSIDE: u64 = 0b1111_0000;

/// A board from its making on, and then whether a board that went another way shows the same.
pub(crate) fn life(rt: &impl Print) -> Result<(), Failure> {
    println!(rt; "{}", Heading("The life of a board"))?;
    let first = first_board(rt)?;
    println!(rt; "\n{}", Heading("Another board, another way"))?;
    let second = second_board(rt)?;
    if first == second {
        println!(rt; "It shows what the first board shows, for every pair.")?;
    } else {
        println!(rt; "It shows other distances than the first board.")?;
    }
    Ok(())
}

// A board that is settled, improved, reopened and settled again; the distances that it shows last.
fn first_board(rt: &impl Print) -> Result<CostTable, Failure> {
    let mut ground = [Cost::new(99); 32];
    let mut draft = Draft::make(&mut ground, EXPONENT);
    draw_up(rt, &mut draft)?;
    let mut board = draft.settle(RELAYS, &RecursiveOrder::new(EXPONENT)?);
    println!(rt; "Settled with Geneva and Kyoto as relays it shows")?;
    show_distances(rt, &board)?;
    improve(rt, &mut board)?;
    let mut draft = board.reopen();
    take_back(rt, &mut draft)?;
    let board = draft.settle(RELAYS, &LoopOrder::new(EXPONENT)?);
    println!(rt; "Settled again, by the loop order, it shows")?;
    show_distances(rt, &board)
}

// Posts the first links, and two that are refused.
fn draw_up(rt: &impl Print, draft: &mut Draft<Cost>) -> Result<(), Failure> {
    println!(rt; "On a new board of four mirrors these links are posted:")?;
    post(rt, draft, Bergen, Geneva, 4)?;
    post(rt, draft, Geneva, Kyoto, 9)?;
    post(rt, draft, Kyoto, Lima, 7)?;
    post(rt, draft, Bergen, Kyoto, 20)?;
    refuse(rt, draft, Geneva.site(), Geneva.site())?;
    refuse(rt, draft, Lima.site(), OUTSIDE)?;
    println!(rt; "It has {} links.", draft.count())?;
    Ok(())
}

// Posts a link on the settled board.
fn improve(rt: &impl Print, board: &mut Settled<Cost>) -> Result<(), Failure> {
    println!(rt; "A link is posted on the settled board:")?;
    say_link(rt, Geneva, Lima, 5)?;
    board.post(Geneva.site(), Lima.site(), Cost::new(5))?;
    println!(rt; "At once it shows better ways from Bergen and Geneva to Lima:")?;
    show_distances(rt, board)?;
    Ok(())
}

// Withdraws a link of the reopened board.
fn take_back(rt: &impl Print, draft: &mut Draft<Cost>) -> Result<(), Failure> {
    draft.withdraw(Geneva.site(), Kyoto.site())?;
    println!(rt; "Reopened, and the link from Geneva to Kyoto withdrawn.")?;
    println!(rt; "It has {} links.", draft.count())?;
    Ok(())
}

// A board that comes to the same links by other calls, on a longer ground, by another order and
// with a relay word that names sites which the board has not.
fn second_board(rt: &impl Print) -> Result<CostTable, Failure> {
    let mut ground = [Cost::here(); 40];
    let mut draft = Draft::make(&mut ground, EXPONENT);
    println!(rt; "Posted on a longer ground:")?;
    post(rt, &mut draft, Geneva, Lima, 8)?;
    post(rt, &mut draft, Bergen, Lima, 1)?;
    let mut board = draft.settle(0, &LoopOrder::new(EXPONENT)?);
    println!(rt; "Settled without relays; posted there:")?;
    say_link(rt, Kyoto, Lima, 7)?;
    board.post(Kyoto.site(), Lima.site(), Cost::new(7))?;
    let mut draft = board.reopen();
    redraw(rt, &mut draft)?;
    let board = draft.settle(RELAYS | RELAYS_OUTSIDE, &RecursiveOrder::new(EXPONENT)?);
    println!(rt; "Settled with Geneva, Kyoto and sites from 4 up as relays it shows")?;
    show_distances(rt, &board)
}

// Brings the links of the second board to those of the first.
fn redraw(rt: &impl Print, draft: &mut Draft<Cost>) -> Result<(), Failure> {
    println!(rt; "Reopened; the link from Bergen to Lima withdrawn; posted:")?;
    draft.withdraw(Bergen.site(), Lima.site())?;
    post(rt, draft, Bergen, Kyoto, 20)?;
    post(rt, draft, Geneva, Lima, 5)?;
    post(rt, draft, Bergen, Geneva, 4)
}

// Posts a link and says so.
fn post(
    rt: &impl Print,
    draft: &mut Draft<Cost>,
    from: Mirror,
    to: Mirror,
    cost: u32,
) -> Result<(), Failure> {
    draft.post(from.site(), to.site(), Cost::new(cost))?;
    say_link(rt, from, to, cost)?;
    Ok(())
}

// Says from where to where a link goes, and what it costs.
fn say_link(rt: &impl Print, from: Mirror, to: Mirror, cost: u32) -> io::Result<()> {
    println!(rt; "    {from} to {to}: {cost}")
}

// Posts a link that is refused, and says with which number. By numbers, since one of the sites is no
// mirror.
fn refuse(rt: &impl Print, draft: &mut Draft<Cost>, from: usize, to: usize) -> Result<(), Failure> {
    match draft.post(from, to, Cost::new(1)) {
        Ok(()) => println!(rt; "    site {from} to site {to} is taken")?,
        Err(fault) => println!(rt;
            "    site {from} to site {to} is refused with number {}",
            fault.number()
        )?,
    }
    Ok(())
}

// Prints what a settled board shows.
fn show_distances(rt: &impl Print, board: &Settled<Cost>) -> Result<CostTable, Failure> {
    let shown = distances(board)?;
    shown.print(rt)?;
    Ok(shown)
}

// What a settled board shows, for every pair of mirrors.
fn distances(board: &Settled<Cost>) -> Result<CostTable, LinkFault> {
    let mut cells = [Cost::none(); 16];
    for (row, from) in cells.chunks_exact_mut(4).zip(Mirror::ALL) {
        for (cell, to) in row.iter_mut().zip(Mirror::ALL) {
            *cell = board.ask(from.site(), to.site())?;
        }
    }
    Ok(CostTable { cells })
}
