// Merit order (01, Calls and prices; 02, request 1), one tier's columns at a time: the walk over its bids and bands, the calls it makes, the
// clearing price. Columns hold bare numbers: widths, calls and energies in kWh, bids in li.
#![tactic(auto)]

ghost use Rattle.std.specs.Prelude.{◌≡◌, cond, ◌+◌, ◌-◌, ◌<◌, ◌≤◌, max, length, set};
ghost use Rattle.columns.specs.Table.{at, table};
ghost use Rattle.share.specs.Split.{Splittable};
ghost use Rattle.merit.specs.OneTier.{below, group_in};
ghost use Rattle.merit.specs.Price.{delivers, price};
ghost use Rattle.merit.specs.Ready.{Columns, Ready, TierCalled, OneLength};
ghost use Rattle.merit.specs.Walk.{past, Margin, cheap_in, Room, Begun, parts_in, Counts, alone, Lowest, next_bid};

use columns::counted;
use units::{Kwh, Li};

// Past every bid: they are below 65,536. It stands for no bid, as in `past` of specs/: the walk ends there by one comparison.
const PAST: Li = Li(65536);

// Above the bids of all terms so far. It decides nothing: the search looks there first.
const HIGH: Li = Li(1024);

// Where the search looks next.
fn middle(lo: Li, hi: Li) -> Li
    requires { lo.0 + 1 < hi.0 }
    ensures { (lo.0 < result.0) × (result.0 < hi.0) }
{
    if (lo < HIGH) & (HIGH < hi) {
        return HIGH;
    }
    Li(columns::middle(lo.0, hi.0))
}

// The bands of one bid: their widths, with 0 for every other row, what these come to, and how many the bands are.
#[derive(Clone, Copy)]
struct Group<'a> {
    widths: &'a [u64],
    sum: Kwh,
    bands: u32,
    ghost counts: { Counts widths.now sum.0 bands },
}

impl<'a> Group<'a> {
    // A band that is alone is called for all that is left.
    fn call_one(self, left: Kwh, out: &mut [u64])
        requires { length out.old ≡ length self.widths.now }
        ensures { out.new ≡ table (length self.entry.widths.now) (alone left.0 self.entry.widths.now) }
    {
        for (i, part) in out.iter_mut().enumerate() {
            *part = left.when(0 < self.widths[i]).into();
        }
    }

    // What of `left` each band is called for: in full if it lasts, else each its share. Sharing is costly, and a band alone needs none.
    fn share(self, left: Kwh, first: usize, out: &mut [u64])
        requires { Splittable self.widths.now out.old first }
        ensures { out.new ≡ parts_in left.0 self.entry.widths.now first }
    {
        if self.sum <= left {
            out.copy_from_slice(self.widths);
            return;
        }
        if self.bands == 1 {
            self.call_one(left, out);
            return;
        }
        share::split(left.into(), self.widths, first, out);
    }
}

// One tier's columns: for each row the width of its band, and its bid. The loops that write go by position: of a slice that is written
// through a zip a proof knows only the length afterwards.
#[derive(Clone, Copy)]
struct Offers<'a> {
    widths: &'a [u32],
    bids: &'a [u32],
    ghost fit: { Columns widths.now bids.now },
}

impl<'a> Offers<'a> {
    // The widths of the bands that are bid below a bid, added up.
    fn below(self, bid: Li) -> Kwh
        requires { bid.0 ≤ past }
        ensures { result.0 ≡ below self.entry.widths.now self.entry.bids.now bid.0 }
    {
        let k = bid.column();
        let mut sum = Kwh(0);
        for (width, bid) in self.widths.iter().zip(self.bids) {
            sum += Kwh::from(counted(*bid < k, *width));
        }
        sum
    }

    // The bid at which the need is passed, found by halving; past every bid if all bands do not pass it.
    fn margin(self, need: Kwh) -> Li
        ensures { Margin need.0 self.entry.widths.now self.entry.bids.now result.0 }
    {
        if self.below(PAST) <= need {
            return PAST;
        }
        let mut lo = Li(0);
        let mut hi = PAST;
        while 1 < hi.0 - lo.0 {
            let mid = middle(lo, hi);
            if self.below(mid) <= need {
                lo = mid;
            } else {
                hi = mid;
            }
        }
        lo
    }

    // Calls the bands that are bid below a bid, in full; answers the sum of their widths.
    fn call_below(self, bid: Li, called: &mut [u32]) -> Kwh
        requires { (bid.0 ≤ past) × (length called.old ≡ length self.widths.now) }
        ensures { (called.new ≡ cheap_in self.entry.widths.now self.entry.bids.now bid.0)
            × (result.0 ≡ below self.entry.widths.now self.entry.bids.now bid.0) }
    {
        let k = bid.column();
        let mut sum = Kwh(0);
        for (i, call) in called.iter_mut().enumerate() {
            let width = Kwh::from(counted(self.bids[i] < k, self.widths[i]));
            *call = width.into();
            sum += width;
        }
        sum
    }

    // The bands of one bid, for whose widths `room` is lent.
    fn group_of<'b>(self, bid: Li, room: &'b mut [u64]) -> Group<'b>
        requires { (bid.0 < past) × (length room.old ≡ length self.widths.now) }
        ensures { result.widths.now ≡ group_in self.entry.widths.now self.entry.bids.now bid.0 }
    {
        let k = bid.column();
        let mut sum = Kwh(0);
        let mut bands = 0;
        for (i, wide) in room.iter_mut().enumerate() {
            let width = Kwh::from(counted(self.bids[i] == k, self.widths[i]));
            *wide = width.into();
            sum += width;
            bands += u32::from(Kwh(0) < width);
        }
        Group {
            widths: room,
            sum,
            bands,
        }
    }

    // What of `left` each band of one bid is called for, into `out`; `room` is lent for the bands.
    fn parts_in(self, bid: Li, left: Kwh, first: usize, room: &mut [u64], out: &mut [u64])
        requires { (bid.0 < past) × Room self.widths.now first out.old × (length room.old ≡ length self.widths.now) }
        ensures { out.new ≡ parts_in left.0 (group_in self.entry.widths.now self.entry.bids.now bid.0) first }
    {
        self.group_of(bid, room).share(left, first, out);
    }

    // The lowest bid above `after` that the rows have.
    fn lowest_above(self, after: Li) -> Option<u32>
        ensures { Lowest after.0 self.entry.bids.now result }
    {
        self.bids
            .iter()
            .copied()
            .filter(|bid| after.0 < u64::from(*bid))
            .min()
    }

    // The bid at which the walk goes on: the lowest above `after`, and PAST if there is none.
    fn next_bid(self, after: Li) -> Li
        ensures { result.0 ≡ next_bid after.0 self.entry.bids.now }
    {
        match self.lowest_above(after) {
            Some(bid) => Li::from(bid),
            None => PAST,
        }
    }

    // The walk over bids and bands, by rising bid, from a bid below which all bands are called in full; `need` is what they leave of it.
    // `group` is room for the bands of one bid, `parts` for what they are called for. It is left as soon as the need is met: from the margin,
    // where `call_tier` begins, during its first turn.
    fn walk(
        self,
        start: Li,
        need: Kwh,
        first: usize,
        called: &mut [u32],
        group: &mut [u64],
        parts: &mut [u64],
    ) -> Kwh
        requires { Begun self.widths.now self.bids.now first start.0 called.old × (length group.old ≡ length self.widths.now)
            × (length parts.old ≡ length self.widths.now) }
        ensures { TierCalled (need.0 + below self.entry.widths.now self.entry.bids.now start.0) self.entry.widths.now self.entry.bids.now
            first result.0 called.new }
    {
        let mut left = need;
        let mut bid = start;
        'walk: while bid < PAST {
            self.parts_in(bid, left, first, group, parts);
            for (i, part) in parts.iter().enumerate() {
                let part = Kwh::from_wide(*part);
                called[i] = (Kwh::from(called[i]) + part).into();
                left = left - part;
                if left == Kwh(0) {
                    break 'walk;
                }
            }
            bid = self.next_bid(bid);
        }
        left
    }

    // Lends the walk its room. The arrays are zeroed where they are made, so they are made only where there is a bid to walk over.
    fn walk_from(self, start: Li, need: Kwh, first: usize, called: &mut [u32]) -> Kwh
        requires { Begun self.widths.now self.bids.now first start.0 called.old }
        ensures { TierCalled (need.0 + below self.entry.widths.now self.entry.bids.now start.0) self.entry.widths.now self.entry.bids.now
            first result.0 called.new }
    {
        let n = self.widths.len();
        let mut group = [0u64; 256];
        let mut parts = [0u64; 256];
        self.walk(start, need, first, called, &mut group[..n], &mut parts[..n])
    }
}

// What each row is called for in one tier, from a column of 0; answers the need beyond all its bands. Bids below the one at which the need
// is passed are called in full, and the walk begins there.
pub fn call_tier(need: Kwh, first: usize, widths: &[u32], bids: &[u32], called: &mut [u32]) -> Kwh
    requires { Ready widths.now bids.now first called.old }
    ensures { TierCalled need.0 widths.now bids.now first result.0 called.new }
{
    if need == Kwh(0) {
        return need;
    }
    let offers = Offers { widths, bids };
    let start = offers.margin(need);
    let sum = offers.call_below(start, called);
    let left = need - sum;
    if PAST <= start {
        return left;
    }
    offers.walk_from(start, left, first, called)
}

// The bid of a row if the row delivers, and 0 if not: it was called and has energy to be paid for.
fn delivered_bid(bid: u32, call: u32, energy: u32) -> u32
    ensures { result ≡ cond (delivers call energy) bid 0 }
{
    counted((0 < call) & (0 < energy), bid)
}

// A tier's clearing price: the highest bid among the rows that deliver there, and 0 if there is none. In 32 bits, and with the test
// in a function of its own and the maximum in std's, so that the compiler makes vector code of the loop: of both in one it makes a choice
// row by row.
pub fn price(bids: &[u32], called: &[u32], energies: &[u32]) -> Li
    requires { OneLength bids.now called.now energies.now }
    ensures { result.0 ≡ price bids.now called.now energies.now }
{
    let mut top: u32 = 0;
    for (i, bid) in bids.iter().enumerate() {
        top = top.max(delivered_bid(*bid, called[i], energies[i]));
    }
    Li::from(top)
}
