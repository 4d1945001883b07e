// Compensation (01, Compensation; Article 28): what the energy delivered in each tier comes to in fen. And penalty (02, request 4;
// Article 52): what the energy called for and not delivered costs.
#![tactic(auto)]

ghost use Rattle.std.specs.Prelude.{◌≡◌, ◌+◌, ◌^◌, ◌<◌, ◌≤◌};
ghost use Rattle.units.specs.Measure.{to_fen};
ghost use Rattle.pay.specs.Pay.{tier_pay, compensation, tier_penalty, penalty};

use units::{Fen, Kwh, Li};

// What a tier pays in li: nothing to a row that was not called there. The bound leaves room for the 5 li that rounding adds.
fn tier_pay(call: Kwh, energy: Kwh, price: Li) -> Li
    requires { price.0 < 2 ^ 31 }
    ensures { (result.0 ≡ tier_pay call.0 energy.0 price.0) × (result.0 + 5 ≤ 2 ^ 63) }
{
    if call == Kwh(0) {
        return Li(0);
    }
    energy.priced(price)
}

// Both tiers added in li and brought to fen once.
fn together(in1: Li, in2: Li) -> Fen
    requires { (in1.0 + 5 ≤ 2 ^ 63) × (in2.0 + 5 ≤ 2 ^ 63) }
    ensures { result.0 ≡ to_fen (in1.0 + in2.0) }
{
    (in1 + in2).to_fen()
}

// What a row is paid in both tiers. A tier's three numbers are no struct here, nor in `penalty`: what callers are asked and told by name
// may not change.
pub fn compensation(
    call1: Kwh,
    call2: Kwh,
    energy1: Kwh,
    energy2: Kwh,
    price1: Li,
    price2: Li,
) -> Fen
    requires { (price1.0 < 2 ^ 31) × (price2.0 < 2 ^ 31) }
    ensures { result.0 ≡ compensation call1.0 call2.0 energy1.0 energy2.0 price1.0 price2.0 }
{
    let in1 = tier_pay(call1, energy1, price1);
    let in2 = tier_pay(call2, energy2, price2);
    together(in1, in2)
}

// What a tier costs in li: twice the price of what was called there and not delivered.
fn tier_penalty(call: Kwh, delivered: Kwh, price: Li) -> Li
    requires { price.0 < 2 ^ 30 }
    ensures { (result.0 ≡ tier_penalty call.0 delivered.0 price.0) × (result.0 + 5 ≤ 2 ^ 63) }
{
    let once = call.above(delivered).priced(price);
    once + once
}

// What a row owes for both tiers. Nearly all rows owe nothing and are done with at one test.
pub fn penalty(
    call1: Kwh,
    call2: Kwh,
    delivered1: Kwh,
    delivered2: Kwh,
    price1: Li,
    price2: Li,
) -> Fen
    requires { (price1.0 < 2 ^ 30) × (price2.0 < 2 ^ 30) }
    ensures { result.0 ≡ penalty call1.0 call2.0 delivered1.0 delivered2.0 price1.0 price2.0 }
{
    if (call1 <= delivered1) & (call2 <= delivered2) {
        return Fen(0);
    }
    let in1 = tier_penalty(call1, delivered1, price1);
    let in2 = tier_penalty(call2, delivered2, price2);
    together(in1, in2)
}
