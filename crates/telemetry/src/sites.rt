// Several sites, one after another in the lent slices: their sums, and the one with the largest share.
ghost use Rattle.std.specs.Prelude.{◌≡◌, ◌*◌, ◌<◌, ◌≤◌, false, length};
ghost use Rattle.links.specs.Refusals.{number_of};
ghost use Rattle.telemetry.specs.Telemetry.{telemetry_cause};
ghost use Rattle.telemetry.specs.Sites.{sites_from, bad_sizes, stated_ranks, site_offsets, site_neighbors, site_owners, ends_early, cause_at, sites_cause, totals_of, SitesTold};
ghost use Rattle.telemetry.specs.SitesCode.{lent, place_of, IsSite, counts_of, counts_at, with_site, SmallSum, SmallCounts, AllPass};

use crate::site::{most_owned, telemetry_cause};
use links::{Refusal, cut_entries};

// The most sites.
const MAX_SITES: usize = 16;

// The lent slices: of each site its numbers of vertices, entries, ranks and owners, and all sites' offsets, neighbors and owners.
#[derive(Clone, Copy)]
pub struct LentSites<'a> {
    pub sizes: &'a [u32],
    pub offsets: &'a [u32],
    pub neighbors: &'a [u32],
    pub owners: &'a [u32],
}

// The sums, and the site with the largest share, from 0.
#[derive(Clone, Copy, PartialEq, Eq, Debug)]
pub struct Totals {
    pub vertices: u64,
    pub ranks: u64,
    pub cut_links: u64,
    pub site: u64,
}

// Where a site begins in each slice.
#[derive(Clone, Copy, Default)]
pub struct Place {
    pub offsets: usize,
    pub neighbors: usize,
    pub owners: usize,
}

// One site's parts of the lent slices, and its number of ranks.
#[derive(Clone, Copy)]
pub struct Site<'a> {
    pub offsets: &'a [u32],
    pub neighbors: &'a [u32],
    pub ranks: u32,
    pub owners: &'a [u32],
}

// What a site counts: its vertices, ranks and cut links, and the most vertices that a rank owns.
#[derive(Clone, Copy)]
pub struct SiteCounts {
    pub vertices: u64,
    pub ranks: u64,
    pub cut_links: u64,
    pub most: u64,
}

// The sites so far: their sums, and the one with the largest share, which is share / size.
#[derive(Clone, Copy)]
pub struct Sum {
    pub vertices: u64,
    pub ranks: u64,
    pub cut_links: u64,
    pub site: u64,
    pub share: u64,
    pub size: u64,
}

// Whether 22 refuses the slice of sizes.
#[tactic(auto, unfolding(crate::specs::Sites::bad_sizes))]
fn bad_sizes(sizes: &[u32]) -> bool
    ensures { result ≡ bad_sizes sizes.now }
{
    let count = sizes.len() / 4;
    sizes.len() % 4 != 0 || count == 0 || count > MAX_SITES
}

// Where site i begins in each slice.
fn place_of(sizes: &[u32], i: usize) -> Place
    requires { (4 * i ≤ length sizes.now) × (i ≤ 16) }
    ensures { result ≡ place_of sizes.now i }
{
    let mut place = Place::default();
    for j in 0..i {
        place.offsets += sizes[4 * j] as usize + 1;
        place.neighbors += sizes[4 * j + 1] as usize;
        place.owners += sizes[4 * j + 3] as usize;
    }
    place
}

// Whether a lent slice ends before site i does.
#[tactic(auto, unfolding(crate::specs::Sites::ends_early, crate::specs::SitesCode::place_of))]
fn ends_early(sites: LentSites, i: usize) -> bool
    requires { IsSite sites.sizes.now i }
    ensures { result ≡ ends_early (lent sites.entry) i }
{
    let end = place_of(sites.sizes, i + 1);
    sites.offsets.len() < end.offsets
        || sites.neighbors.len() < end.neighbors
        || sites.owners.len() < end.owners
}

// Site i.
#[tactic(auto, using(crate::proofs::SitesLaws::offsets_rise, crate::proofs::SitesLaws::neighbors_rise, crate::proofs::SitesLaws::owners_rise), unfolding(crate::specs::Sites::ends_early, crate::specs::SitesCode::place_of))]
fn site_at<'a>(sites: LentSites<'a>, i: usize) -> Site<'a>
    requires { IsSite sites.sizes.now i × (ends_early (lent sites) i ≡ false) }
    ensures offsets { result.offsets.now ≡ site_offsets (lent sites.entry) i }
    ensures neighbors { result.neighbors.now ≡ site_neighbors (lent sites.entry) i }
    ensures ranks { result.ranks ≡ stated_ranks sites.entry.sizes.now i }
    ensures owners { result.owners.now ≡ site_owners (lent sites.entry) i }
{
    let start = place_of(sites.sizes, i);
    let end = place_of(sites.sizes, i + 1);
    Site {
        offsets: &sites.offsets[start.offsets..end.offsets],
        neighbors: &sites.neighbors[start.neighbors..end.neighbors],
        ranks: sites.sizes[4 * i + 2],
        owners: &sites.owners[start.owners..end.owners],
    }
}

// What refuses site i: the first of 5, 3, 4, 2, 3, 12, 9, 18.
#[tactic(auto, unfolding(crate::specs::Sites::cause_at))]
fn cause_at(sites: LentSites, i: usize) -> Result<(), Refusal>
    requires { IsSite sites.sizes.now i }
    ensures { number_of result ≡ cause_at (lent sites.entry) i }
{
    if ends_early(sites, i) {
        return Err(Refusal::SliceTooShort);
    }
    let site = site_at(sites, i);
    telemetry_cause(site.offsets, site.neighbors, site.ranks, site.owners)
}

// 22, or the first refusal of a site.
fn sites_cause(sites: LentSites) -> Result<(), Refusal>
    ensures { number_of result ≡ sites_cause (lent sites.entry) }
{
    if bad_sizes(sites.sizes) {
        return Err(Refusal::InvalidSizes);
    }
    for i in 0..sites.sizes.len() / 4 {
        cause_at(sites, i)?;
    }
    Ok(())
}

// What a site counts that is not refused.
fn count_site(site: Site) -> SiteCounts
    requires { telemetry_cause site.offsets.now site.neighbors.now site.ranks site.owners.now ≡ 0 }
    ensures { result ≡ counts_of site.entry.offsets.now site.entry.neighbors.now site.entry.ranks site.entry.owners.now }
{
    SiteCounts {
        vertices: site.owners.len() as u64,
        ranks: u64::from(site.ranks),
        cut_links: cut_entries(site.offsets, site.neighbors, site.owners) / 2,
        most: most_owned(site.ranks, site.owners),
    }
}

// What site i counts.
#[tactic(auto, unfolding(crate::specs::SitesCode::counts_at))]
fn count_at(sites: LentSites, i: usize) -> SiteCounts
    requires { IsSite sites.sizes.now i × (cause_at (lent sites) i ≡ 0) }
    ensures { result ≡ counts_at (lent sites.entry) i }
{
    count_site(site_at(sites, i))
}

impl Sum {
    // Site i is counted with those before it, and kept if its share is larger than theirs, by whole products.
    fn with_site(mut self, i: usize, c: SiteCounts) -> Sum
        requires { SmallSum self i × SmallCounts c × (i < 16) }
        ensures { result ≡ with_site self i c }
    {
        self.vertices += c.vertices;
        self.ranks += c.ranks;
        self.cut_links += c.cut_links;
        let share = c.most * c.ranks;
        if self.share * c.vertices < share * self.size {
            self.site = i as u64;
            self.share = share;
            self.size = c.vertices;
        }
        self
    }
}

// The sums of sites of which none is refused.
fn sum_sites(sites: LentSites) -> Totals
    requires { AllPass (lent sites) }
    ensures { result ≡ totals_of (lent sites.entry) }
{
    let mut sum = Sum {
        vertices: 0,
        ranks: 0,
        cut_links: 0,
        site: 0,
        share: 0,
        size: 1,
    };
    for i in 0..sites.sizes.len() / 4 {
        sum = sum.with_site(i, count_at(sites, i));
    }
    Totals {
        vertices: sum.vertices,
        ranks: sum.ranks,
        cut_links: sum.cut_links,
        site: sum.site,
    }
}

// The sums over all sites and the one with the largest share; or 22, or the first refusal of a site: 5, 3, 4, 2, 3, 12, 9, 18.
// Rules out: the later of two sites with the same share; a site read from a slice's start; a later site's 5 before an earlier one's 4.
pub fn sites_balance(
    sizes: &[u32],
    offsets: &[u32],
    neighbors: &[u32],
    owners: &[u32],
) -> Result<Totals, Refusal>
    ensures { SitesTold (sites_from sizes.now offsets.now neighbors.now owners.now) result }
{
    let sites = LentSites {
        sizes,
        offsets,
        neighbors,
        owners,
    };
    sites_cause(sites)?;
    Ok(sum_sites(sites))
}
