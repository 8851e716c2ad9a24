// The routes of a board: the n² cells after its links.
ghost use Rattle.std.specs.Prelude.{◌≡◌, ◌*◌, ◌<◌, slice_set};
ghost use Rattle.elimination.specs.Table.{place};
ghost use Rattle.paths.specs.Ground.{link_at, route_at, route_place};
ghost use Rattle.paths.specs.Calls.{settled, post_answer, post_ground, meets, join_routes, ask_answer};
ghost use Rattle.ground.specs.Cells.{Pair, join_route};
ghost use Rattle.ground.specs.Kept.{Kept};

use crate::ground::Ground;
use crate::sites::sites_on;
use faults::LinkFault;
use kinds::kind::Kind;
use runs::relays::Relays;

// A link that is posted: a value from one site to another.
#[derive(Clone, Copy)]
struct Link<V> {
    from: usize,
    to: usize,
    value: V,
}

impl<V: Kind> Ground<'_, V> {
    // Where the route from i to j stands: behind the links, since a board stands on one lent slice.
    // Here and below known sites are asked for pair by pair, as for links.
    fn route_place(&self, i: usize, j: usize) -> usize
        requires { Pair self.now.n i j }
        ensures place { result ≡ route_place self.now.n i j }
        ensures inside { result < 2 * (self.now.n * self.now.n) }
    {
        self.n * self.n + self.link_place(i, j)
    }

    // The route from i to j.
    fn route_at(&self, i: usize, j: usize) -> V
        requires { Pair self.now.n i j }
        ensures { result ≡ route_at V.ops self.now.n self.now.cells.now i j }
    {
        self.cells[self.route_place(i, j)]
    }

    /// The route from one site to another, which may be the same.
    /// Refused with number 1 for a site not below n.
    pub fn ask_route(&self, from: usize, to: usize) -> Result<V, LinkFault>
        ensures { result ≡ ask_answer V.ops self.now.exponent from to self.now.cells.now }
    {
        ask_route(self.cells, self.exponent, from, to)
    }

    /// Joins a value to the link from one site to another, and each route from a to b with the chain
    /// of route a to `from`, the value, and route `to` to b, where a is `from` or `from` is a relay,
    /// and b is `to` or `to` is a relay.
    /// Refused with number 1 for a site not below n, then with number 2 for the same site twice; a
    /// refusal leaves every cell.
    #[tactic(auto, using(crate::proofs::PairCalls::post_and_join_leaves, crate::proofs::PairCalls::pair_known))]
    pub fn post_and_join(
        &mut self,
        relays: Relays,
        from: usize,
        to: usize,
        value: V,
    ) -> Result<(), LinkFault>
        ensures answer { result ≡ post_answer self.old.exponent from to self.old.cells.now }
        ensures cells { self.new.cells.now ≡ post_ground V.ops self.old.exponent (settled relays.word) from to value self.old.cells.now }
        ensures kept { Kept self.old self.new }
    {
        self.post_link(from, to, value)?;
        self.join_routes(relays, Link { from, to, value });
        Ok(())
    }

    // Joins each route with the way over a posted link. The routes that this reads never change on
    // the way, since a route covers itself chained to anything.
    #[tactic(auto, using(crate::proofs::JoinedRoutes::joined_none, crate::proofs::JoinedRoutes::joined_more, crate::proofs::JoinedRoutes::joined_all, crate::proofs::JoinedRoutes::pair_at))]
    fn join_routes(&mut self, relays: Relays, link: Link<V>)
        requires { Pair self.old.n link.from link.to }
        ensures cells { self.new.cells.now ≡ join_routes V.ops self.old.n relays.word link.from link.to link.value self.old.cells.now }
        ensures kept { Kept self.old self.new }
    {
        // By index, since a turn reads other routes than the one that it writes.
        let n = self.n;
        for p in 0..n * n {
            self.join_route(relays, link, p / n, p % n);
        }
    }

    // Joins the route from a to b, where it may pass on at both ends of the link.
    fn join_route(&mut self, relays: Relays, link: Link<V>, a: usize, b: usize)
        requires pair { Pair self.old.n link.from link.to }
        requires route { Pair self.old.n a b }
        ensures cells { self.new.cells.now ≡ join_route V.ops self.old.n relays.word link.from link.to link.value a b self.old.cells.now }
        ensures kept { Kept self.old self.new }
    {
        if meets(relays, link.from, a) && meets(relays, link.to, b) {
            let way = self.way(link, a, b);
            let at = self.route_place(a, b);
            self.cells[at] = self.cells[at].join(way);
        }
    }

    // The way from a to b over a posted link.
    fn way(&self, link: Link<V>, a: usize, b: usize) -> V
        requires pair { Pair self.now.n link.from link.to }
        requires route { Pair self.now.n a b }
        ensures { result ≡ V.ops.chain (V.ops.chain (route_at V.ops self.now.n self.now.cells.now a link.from) link.value) (route_at V.ops self.now.n self.now.cells.now link.to b) }
    {
        let first = self.route_at(a, link.from);
        let last = self.route_at(link.to, b);
        first.chain(link.value).chain(last)
    }
}

/// The route from one site to another, which may be the same, for cells that are lent to be read
/// alone.
/// Refused with number 1 for a site not below n.
#[tactic(auto, using(elimination::proofs::Tables::place_below))]
pub fn ask_route<V: Kind>(
    cells: &[V],
    exponent: u32,
    from: usize,
    to: usize,
) -> Result<V, LinkFault>
    ensures { result ≡ ask_answer V.ops exponent from to cells.now }
{
    let n = sites_on(exponent, cells.len());
    if from >= n || to >= n {
        return Err(LinkFault::SiteOutside);
    }
    // Written out, since `route_place` is a method of a ground, and that is made of a `&mut`.
    Ok(cells[n * n + (from * n + to)])
}

// Whether a route that begins or ends at a may pass on at a site: it is that site, or a relay.
fn meets(relays: Relays, site: usize, a: usize) -> bool
    ensures { result ≡ meets relays.word site a }
{
    a == site || relays.includes(site)
}
