// The links of a board: the first n² cells of its ground.
ghost use Rattle.std.specs.Prelude.{◌≡◌, ◌*◌, ◌/◌, ◌%◌, ◌<◌, not, ◌&&◌, length, ◌==◌, slice_index_or, IfOk};
ghost use Rattle.elimination.specs.Table.{place};
ghost use Rattle.std.specs.Result.{result_map_both};
ghost use Rattle.paths.specs.Calls.{draft, pair_answer, post_answer, post_ground, link_answer, withdraw_answer, withdraw_ground, count_links};
ghost use Rattle.ground.specs.Cells.{Pair};
ghost use Rattle.ground.specs.Kept.{Kept};

use crate::ground::Ground;
use crate::sites::sites_on;
use faults::LinkFault;
use kinds::kind::Kind;

impl<V: Kind> Ground<'_, V> {
    // Where the link from i to j stands. It asks for known sites, as `place_of` in the crate runs does,
    // so neither is public and each crate has its own. The sites come one by one: a struct of two would
    // still have to be tied to its ground.
    pub(crate) fn link_place(&self, i: usize, j: usize) -> usize
        requires { Pair self.now.n i j }
        ensures place { result ≡ place self.now.n i j }
        ensures inside { result < self.now.n * self.now.n }
    {
        i * self.n + j
    }

    // Where the link from one site to another stands, if a link may stand there.
    fn link_between(&self, from: usize, to: usize) -> Result<usize, LinkFault>
        ensures answer { result_map_both (λ _. tt) (λ e. e) result ≡ pair_answer self.now.n from to }
        ensures place { IfOk result (λ at. at ≡ place self.now.n from to) }
        ensures inside { IfOk result (λ at. at < self.now.n * self.now.n) }
    {
        if from >= self.n || to >= self.n {
            return Err(LinkFault::SiteOutside);
        }
        if from == to {
            return Err(LinkFault::SameSite);
        }
        Ok(self.link_place(from, to))
    }

    /// Joins a value to the link from one site to another.
    /// Refused with number 1 for a site not below n, then with number 2 for the same site twice; a
    /// refusal leaves every cell.
    #[tactic(auto, using(crate::proofs::PairCalls::post_link_leaves))]
    pub fn post_link(&mut self, from: usize, to: usize, value: V) -> Result<(), LinkFault>
        ensures answer { result ≡ post_answer self.old.exponent from to self.old.cells.now }
        ensures cells { self.new.cells.now ≡ post_ground V.ops self.old.exponent draft from to value self.old.cells.now }
        ensures kept { Kept self.old self.new }
    {
        let at = self.link_between(from, to)?;
        self.cells[at] = self.cells[at].join(value);
        Ok(())
    }

    /// Makes the link from one site to another none.
    /// Refused with number 1 for a site not below n, then with number 2 for the same site twice, then
    /// with number 3 for a link that is none; a refusal leaves every cell.
    #[tactic(auto, using(crate::proofs::PairCalls::withdraw_link_leaves))]
    pub fn withdraw_link(&mut self, from: usize, to: usize) -> Result<(), LinkFault>
        ensures answer { result ≡ withdraw_answer V.ops self.old.exponent from to self.old.cells.now }
        ensures cells { self.new.cells.now ≡ withdraw_ground V.ops self.old.exponent from to self.old.cells.now }
        ensures kept { Kept self.old self.new }
    {
        let at = self.link_between(from, to)?;
        let link = self.cells[at];
        if link.equals(V::none()) {
            return Err(LinkFault::NoLink);
        }
        self.cells[at] = V::none();
        Ok(())
    }

    /// The number of ordered pairs of different sites whose link is not none.
    pub fn count_links(&self) -> usize
        ensures { result ≡ count_links V.ops self.now.exponent self.now.cells.now }
    {
        count_links(self.cells, self.exponent)
    }
}

/// The number of ordered pairs of different sites whose link is not none, for cells that are lent to
/// be read alone.
#[tactic(auto, using(crate::proofs::Counting::tally_more, crate::proofs::Counting::is_link_here), unfolding(paths::specs::Calls::tally))]
pub fn count_links<V: Kind>(cells: &[V], exponent: u32) -> usize
    ensures { result ≡ count_links V.ops exponent cells.now }
{
    // A loop, since the chain by `filter` and `count` has a far longer proof.
    let n = sites_on(exponent, cells.len());
    let mut count = 0;
    for (p, link) in cells[..n * n].iter().enumerate() {
        if is_link(n, p, *link) {
            count += 1;
        }
    }
    count
}

// Whether what stands at the place of a link is one: between different sites, and not none.
fn is_link<V: Kind>(n: usize, p: usize, link: V) -> bool
    requires { 0 < n }
    ensures { result ≡ (not (p / n == p % n) && not (V.ops.same link V.ops.none)) }
{
    p / n != p % n && !link.equals(V::none())
}
