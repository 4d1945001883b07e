// The four measures of the rules (01, Units of account), and every way from one to another: 1 yuan = 100 fen =
// 1,000 li = 10,000 hao. Bids and tariffs are per kWh. A figure changes its measure by one of these functions only.
#![tactic(auto)]

ghost use Rattle.std.specs.Prelude.{◌≡◌, cond, ◌+◌, ◌-◌, ◌*◌, ◌/◌, ◌^◌, ◌<◌, ◌≤◌, min, max};
ghost use Rattle.units.specs.Measure.{to_fen, priced, thermal_cap};
ghost use Rattle.units.specs.Load.{load, most};

use columns::counted;
use std::ops::{Add, AddAssign, Sub};

#[derive(Clone, Copy, Debug, PartialEq, Eq, PartialOrd, Ord)]
pub struct Kwh(pub u32);

#[derive(Clone, Copy, Debug, PartialEq, Eq, PartialOrd, Ord)]
pub struct Li(pub u64);

#[derive(Clone, Copy, Debug, PartialEq, Eq, PartialOrd, Ord)]
pub struct Hao(pub u32);

#[derive(Clone, Copy, Debug, PartialEq, Eq, PartialOrd, Ord)]
pub struct Fen(pub u64);

// Into and out of a column of energies.
impl From<u32> for Kwh {
    ghost from_gives = { λ x energy. energy.0 ≡ x };

    fn from(x: u32) -> Kwh {
        Kwh(x)
    }
}

impl From<Kwh> for u32 {
    ghost from_gives = { λ energy x. x ≡ energy.0 };

    fn from(energy: Kwh) -> u32 {
        energy.0
    }
}

// Into the sharing rule's columns, which have 64 bits.
impl From<Kwh> for u64 {
    ghost from_gives = { λ energy x. x ≡ energy.0 };

    fn from(energy: Kwh) -> u64 {
        u64::from(energy.0)
    }
}

// Out of a column of bids or prices.
impl From<u32> for Li {
    ghost from_gives = { λ x money. money.0 ≡ x };

    fn from(x: u32) -> Li {
        Li(u64::from(x))
    }
}

// Two energies together.
impl Add for Kwh {
    type Output = Kwh;

    ghost can_add = { λ a b. a.0 + b.0 < 2 ^ 32 };

    ghost add_gives = { λ a b sum. sum.0 ≡ a.0 + b.0 };

    fn add(self, other: Kwh) -> Kwh {
        Kwh(self.0 + other.0)
    }
}

impl AddAssign for Kwh {
    ghost can_add_assign = { λ a b. a.0 + b.0 < 2 ^ 32 };

    ghost add_assign_gives = { λ a b sum. sum.0 ≡ a.0 + b.0 };

    fn add_assign(&mut self, energy: Kwh) {
        *self = *self + energy;
    }
}

// What is left of an energy without a part of it.
impl Sub for Kwh {
    type Output = Kwh;

    ghost can_sub = { λ a b. b.0 ≤ a.0 };

    ghost sub_gives = { λ a b rest. rest.0 ≡ a.0 - b.0 };

    fn sub(self, part: Kwh) -> Kwh {
        Kwh(self.0 - part.0)
    }
}

// Two sums of money in li together.
impl Add for Li {
    type Output = Li;

    ghost can_add = { λ a b. a.0 + b.0 < 2 ^ 64 };

    ghost add_gives = { λ a b sum. sum.0 ≡ a.0 + b.0 };

    fn add(self, other: Li) -> Li {
        Li(self.0 + other.0)
    }
}

// Two sums of money together.
impl Add for Fen {
    type Output = Fen;

    ghost can_add = { λ a b. a.0 + b.0 < 2 ^ 64 };

    ghost add_gives = { λ a b sum. sum.0 ≡ a.0 + b.0 };

    fn add(self, other: Fen) -> Fen {
        Fen(self.0 + other.0)
    }
}

impl AddAssign for Fen {
    ghost can_add_assign = { λ a b. a.0 + b.0 < 2 ^ 64 };

    ghost add_assign_gives = { λ a b sum. sum.0 ≡ a.0 + b.0 };

    fn add_assign(&mut self, money: Fen) {
        *self = *self + money;
    }
}

// What is left of a sum of money without a part of it.
impl Sub for Fen {
    type Output = Fen;

    ghost can_sub = { λ a b. b.0 ≤ a.0 };

    ghost sub_gives = { λ a b rest. rest.0 ≡ a.0 - b.0 };

    fn sub(self, part: Fen) -> Fen {
        Fen(self.0 - part.0)
    }
}

impl Kwh {
    // Out of the sharing rule's columns.
    pub fn from_wide(x: u64) -> Kwh
        requires { x < 2 ^ 32 }
        ensures { result.0 ≡ x }
    {
        Kwh(x as u32)
    }

    // The smaller of two energies.
    pub fn smaller(self, other: Kwh) -> Kwh
        ensures { result.0 ≡ min self.0 other.0 }
    {
        self.min(other)
    }

    // The larger of two energies.
    pub fn larger(self, other: Kwh) -> Kwh
        ensures { result.0 ≡ max self.0 other.0 }
    {
        self.max(other)
    }

    // What this energy has above another, 0 if it has nothing above it. The quotient is 1 or 0 for that: of a comparison, as in
    // `saturating_sub`, the compiler makes a branch.
    pub fn above(self, other: Kwh) -> Kwh
        ensures { result.0 ≡ self.0 - other.0 }
    {
        let d = u64::from(self.0) + 4294967296 - u64::from(other.0);
        Kwh(((d % 4294967296) * (d / 4294967296)) as u32)
    }

    // This energy if a test passed, and 0 if not.
    pub fn when(self, t: bool) -> Kwh
        ensures { result.0 ≡ cond t self.0 0 }
    {
        Kwh(counted(t, self.0))
    }

    // This energy if a test passed, else another: two products, for the compiler makes a branch of an `if`.
    pub fn or(self, t: bool, other: Kwh) -> Kwh
        ensures { result.0 ≡ cond t self.0 other.0 }
    {
        Kwh(self.when(t).0 + other.when(!t).0)
    }

    // What this energy comes to at a price for each kWh.
    pub fn priced(self, price: Li) -> Li
        requires { price.0 < 2 ^ 32 }
        ensures { result.0 ≡ priced self.0 price.0 }
    {
        Li(u64::from(self.0) * price.0)
    }

    // The most that a thermal unit of this metered energy pays; a farm pays as much as a unit of twice its energy.
    pub fn thermal_cap(self, tariff: Hao) -> Fen
        ensures { result.0 ≡ thermal_cap self.0 tariff.0 }
    {
        Fen(u64::from(self.0) * u64::from(tariff.0) / 400)
    }
}

impl Li {
    // Into a column of bids or prices.
    pub fn column(self) -> u32
        requires { self.0 < 2 ^ 32 }
        ensures { result ≡ self.0 }
    {
        self.0 as u32
    }

    // Half a fen goes upward.
    pub fn to_fen(self) -> Fen
        requires { self.0 + 5 < 2 ^ 64 }
        ensures { result.0 ≡ to_fen self.0 }
    {
        Fen((self.0 + 5) / 10)
    }
}

impl Fen {
    // The smaller of two sums of money.
    pub fn smaller(self, other: Fen) -> Fen
        ensures { result.0 ≡ min self.0 other.0 }
    {
        Fen(self.0.min(other.0))
    }
}

// So many percent of a capacity in MW over a quarter hour, cut to whole kWh.
pub fn load(capacity: u16, percent: u8) -> Kwh
    ensures { result.0 ≡ load capacity percent }
{
    Kwh(u32::from(capacity) * 250 * u32::from(percent) / 100)
}

// 110 percent of it: no meter reads more.
pub fn most(capacity: u16) -> Kwh
    ensures { result.0 ≡ most capacity }
{
    load(capacity, 110)
}
