// What penalties fill of a shortfall, and what is left of both: cuts and what is returned (02, request 4; Articles 32 and 52). The one
// sharing rule makes the fen of both.
ghost use Rattle.std.specs.Prelude.{◌≡◌, length};
ghost use Rattle.share.specs.Share.{shares};
ghost use Rattle.levy.specs.Asked.{Small, Room, Covered, Apportionable};

use crate::Left;
use columns::wide;
use units::Fen;

// Penalties fill a shortfall before anybody is cut; what is not needed goes back.
pub fn cover(penalties: Fen, shortfall: Fen) -> Left
    ensures { Covered penalties.0 shortfall.0 result }
{
    let used = penalties.smaller(shortfall);
    Left {
        cut: shortfall - used,
        returned: penalties - used,
    }
}

// A column with more room for each figure.
fn widen(from: &[u32], to: &mut [u64])
    requires { length to.old ≡ length from.now }
    ensures { (to.new ≡ from.now) × Small to.new }
{
    for (i, place) in to.iter_mut().enumerate() {
        *place = wide(from[i]);
    }
}

// A column with less room, where each figure still fits.
fn narrow(from: &[u64], to: &mut [u32])
    requires { (length to.old ≡ length from.now) × Small from.now }
    ensures { to.new ≡ from.now }
{
    for (i, place) in to.iter_mut().enumerate() {
        *place = from[i] as u32;
    }
}

// Sums with room, then shares; two columns of room are lent.
fn apportion_over(
    amount: Fen,
    sums: &[u32],
    first: usize,
    weights: &mut [u64],
    parts: &mut [u64],
    out: &mut [u32],
)
    requires { Apportionable amount.0 sums.now first out.old × Room (length sums.now) weights.old parts.old }
    ensures { out.new ≡ shares amount.0 sums.now first }
{
    widen(sums, weights);
    share::split(amount.0, weights, first, parts);
    narrow(parts, out);
}

// An amount shared over sums that come to no less: cuts over compensations, what is returned over penalties.
pub fn apportion(amount: Fen, sums: &[u32], first: usize, out: &mut [u32])
    requires { Apportionable amount.0 sums.now first out.old }
    ensures { out.new ≡ shares amount.0 sums.now first }
{
    let n = sums.len();
    let mut weights = [0u64; 256];
    let mut parts = [0u64; 256];
    apportion_over(amount, sums, first, &mut weights[..n], &mut parts[..n], out);
}
