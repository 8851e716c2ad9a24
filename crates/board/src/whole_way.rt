// One board from its making on, with each kind of call, and what it shows.
ghost use Rattle.std.specs.Prelude.{◌≡◌, Ok};
ghost use Rattle.std.specs.Result.{result_map_both};
ghost use Rattle.board.specs.WholeWay.{Went};

use crate::draft::Draft;
use faults::{LayoutFault, LinkFault};
use kinds::cells::Cost;
use orders::loop_order::LoopOrder;
use orders::order::Order;
use orders::recursive_order::RecursiveOrder;

/// What the calls on one board of four sites answer, in their order; the asks are from site 0 to
/// site 2.
#[derive(Clone, Copy, PartialEq, Eq, Debug)]
pub struct Answers {
    pub first_link: Result<(), LinkFault>,
    pub second_link: Result<(), LinkFault>,
    pub same_site: Result<(), LinkFault>,
    pub settled: Result<Cost, LinkFault>,
    pub better_link: Result<(), LinkFault>,
    pub improved: Result<Cost, LinkFault>,
    pub withdrawn: Result<(), LinkFault>,
    pub settled_again: Result<Cost, LinkFault>,
}

/// Makes a board, posts 0→1 at 10 and 1→2 at 5, settles with site 1 as the relay, posts 0→2 at 9,
/// withdraws that again and settles by another order. Only a post from site 1 to itself is refused.
pub fn whole_way() -> Answers
    ensures { Went result }
{
    let mut ground = [Cost::new(7); 32];
    let mut draft = Draft::make(&mut ground, 2);
    let first_link = draft.post(0, 1, Cost::new(10));
    let second_link = draft.post(1, 2, Cost::new(5));
    let same_site = draft.post(1, 1, Cost::new(1));
    let mut board = draft.settle(2, &of_four(RecursiveOrder::new(2)));
    let settled = board.ask(0, 2);
    let better_link = board.post(0, 2, Cost::new(9));
    let improved = board.ask(0, 2);
    let mut reopened = board.reopen();
    let withdrawn = reopened.withdraw(0, 2);
    let again = reopened.settle(2, &of_four(LoopOrder::new(2)));
    let settled_again = again.ask(0, 2);
    Answers {
        first_link,
        second_link,
        same_site,
        settled,
        better_link,
        improved,
        withdrawn,
        settled_again,
    }
}

// An order of four sites, which was made.
fn of_four<O: Order>(order: Result<O, LayoutFault>) -> O
    requires { result_map_both (λ o. O.log o) (λ e. e) order ≡ Ok 2 }
    ensures { O.log result ≡ 2 }
{
    order.unwrap()
}
