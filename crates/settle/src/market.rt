// The market's stages: calls and price of a tier, then what each row is paid, and what it owes.
ghost use Rattle.std.specs.Prelude.{◌≡◌, ◌+◌, ◌≤◌, length};
ghost use Rattle.records.specs.Sheet.{cell_at, cell, column_of};
ghost use Rattle.statement.specs.Statement.{line_start};
ghost use Rattle.merit.specs.Price.{price};
ghost use Rattle.merit.specs.Ready.{OneLength};
ghost use Rattle.settle.specs.Work.{Ruled, Offered, Lent, ClearedIn, Called, tier_fields, Tradable, Traded, paying, owing, priced_at, Accountable, Accounted};

use crate::pairs::get_pair;
use pay::{compensation, penalty};
use records::{Field, cell, get_column, put_cell, put_column};
use statement::{CALLED1, CALLED2, CLOSING, COMPENSATION, CUT, OWED, PAID, PAY, PENALTY, RETURNED};
use units::{Fen, Kwh, Li};

// What a tier comes to: the need that it leaves, and its clearing price.
#[derive(Clone, Copy)]
pub struct Cleared {
    pub left: Kwh,
    pub price: Li,
}

// What both tiers come to: the need beyond all bands, and a price for each.
#[derive(Clone, Copy)]
pub struct Market {
    pub uncovered: Kwh,
    pub price1: Li,
    pub price2: Li,
}

// The fields in which a tier stands in the lines: widths, which its calls replace, bids, and the energies delivered.
#[derive(Clone, Copy)]
pub struct TierFields {
    pub width: Field,
    pub bid: Field,
    pub energy: Field,
}

// One of both tiers.
#[derive(Clone, Copy)]
pub enum Tier {
    One,
    Two,
}

impl Tier {
    // The fields of its lines. A match, and no array of both: then the compiler knows what they share, as each width.
    fn fields(self) -> TierFields
        ensures { result ≡ tier_fields self }
    {
        match self {
            Tier::One => TierFields {
                width: CALLED1,
                bid: CLOSING,
                energy: COMPENSATION,
            },
            Tier::Two => TierFields {
                width: CALLED2,
                bid: PAID,
                energy: CUT,
            },
        }
    }
}

// A tier's clearing price, the energies delivered being those that stand in a field of the sheet.
fn price_in(energy: Field, bids: &[u32], called: &[u32], energies: &mut [u32], sheet: &[u8]) -> Li
    requires { OneLength bids.now called.now energies.old × Ruled (length energies.old) energy sheet.now }
    ensures { result.0 ≡ price bids.now called.now (column_of energy (length energies.old) sheet.now) }
{
    get_column(sheet, energy, energies);
    merit::price(bids, called, energies)
}

// A tier's calls and its price, in columns that the caller lends. That of the widths has served once the calls are made, and then
// holds the energies.
fn clear_in(
    need: Kwh,
    first: usize,
    fields: TierFields,
    widths: &mut [u32],
    bids: &mut [u32],
    called: &mut [u32],
    sheet: &[u8],
) -> Cleared
    requires { Offered (length called.old) first fields sheet.now × Lent widths.old bids.old called.old }
    ensures { ClearedIn need.0 first (length called.old) fields sheet.now called.new result }
{
    get_pair(sheet, fields.width, fields.bid, widths, bids);
    let left = merit::call_tier(need, first, widths, bids, called);
    let price = price_in(fields.energy, bids, called, widths, sheet);
    Cleared { left, price }
}

// The same, with the calls put where the widths stood. Where nothing is needed nobody is called, as the column lent says, and nobody
// sets a price.
fn call_in(
    need: Kwh,
    first: usize,
    fields: TierFields,
    widths: &mut [u32],
    bids: &mut [u32],
    called: &mut [u32],
    sheet: &mut [u8],
) -> Cleared
    requires { Offered (length called.old) first fields sheet.old × Lent widths.old bids.old called.old }
    ensures { Called need.0 first (length called.old) fields sheet.old sheet.new result }
{
    if need == Kwh(0) {
        put_column(sheet, fields.width, called);
        return Cleared {
            left: need,
            price: Li(0),
        };
    }
    let cleared = clear_in(need, first, fields, widths, bids, called, sheet);
    put_column(sheet, fields.width, called);
    cleared
}

// One tier's calls and price.
fn call(need: Kwh, first: usize, n: usize, fields: TierFields, sheet: &mut [u8]) -> Cleared
    requires { Offered n first fields sheet.old }
    ensures { Called need.0 first n fields sheet.old sheet.new result }
{
    let mut widths = [0u32; 256];
    let mut bids = [0u32; 256];
    let mut called = [0u32; 256];
    call_in(
        need,
        first,
        fields,
        &mut widths[..n],
        &mut bids[..n],
        &mut called[..n],
        sheet,
    )
}

// Both tiers, the second with what the first leaves of the need. There is one call, so that its columns share the engine's frame.
pub fn trade(need: Kwh, first: usize, n: usize, sheet: &mut [u8]) -> Market
    requires { Tradable need.0 first n sheet.old }
    ensures { Traded need.0 first n sheet.old sheet.new result }
{
    let mut left = need;
    let mut before = Li(0);
    let mut price = Li(0);
    for tier in [Tier::One, Tier::Two] {
        let cleared = call(left, first, n, tier.fields(), sheet);
        left = cleared.left;
        before = price;
        price = cleared.price;
    }
    Market {
        uncovered: left,
        price1: before,
        price2: price,
    }
}

// The energy that stands in a field of a line.
fn energy_at(sheet: &[u8], field: Field, i: usize) -> Kwh
    requires { (cell_at field i + field.width ≤ length sheet.now) × (field.width ≤ 4) }
    ensures { result.0 ≡ cell field sheet.now i }
{
    Kwh::from(cell(sheet, field, i) as u32)
}

// What the row at a position is paid. A function of its own beside that of what it owes: one for both would take the rule and two fields
// besides, which is no plainer.
fn pay_at(sheet: &[u8], i: usize, price1: Li, price2: Li) -> Fen
    requires { (line_start (i + 1) ≤ length sheet.now) × (price1.0 ≤ 1000) × (price2.0 ≤ 1000) }
    ensures { result.0 ≡ priced_at paying price1.0 price2.0 sheet.now i }
{
    let call1 = energy_at(sheet, CALLED1, i);
    let call2 = energy_at(sheet, CALLED2, i);
    let energy1 = energy_at(sheet, COMPENSATION, i);
    let energy2 = energy_at(sheet, CUT, i);
    compensation(call1, call2, energy1, energy2, price1, price2)
}

// What the row at a position owes.
fn owed_at(sheet: &[u8], i: usize, price1: Li, price2: Li) -> Fen
    requires { (line_start (i + 1) ≤ length sheet.now) × (price1.0 ≤ 1000) × (price2.0 ≤ 1000) }
    ensures { result.0 ≡ priced_at owing price1.0 price2.0 sheet.now i }
{
    let call1 = energy_at(sheet, CALLED1, i);
    let call2 = energy_at(sheet, CALLED2, i);
    let credit1 = energy_at(sheet, PENALTY, i);
    let credit2 = energy_at(sheet, RETURNED, i);
    penalty(call1, call2, credit1, credit2, price1, price2)
}

// What all rows are paid, and what all owe.
#[derive(Clone, Copy)]
pub struct Accounts {
    pub total: Fen,
    pub penalties: Fen,
}

// What each row is paid and what it owes, in the places of what it delivered and is credited with. Nothing is cut or returned yet.
pub fn account(n: usize, price1: Li, price2: Li, sheet: &mut [u8]) -> Accounts
    requires { Accountable n price1.0 price2.0 sheet.old }
    ensures { Accounted n price1.0 price2.0 sheet.old sheet.new result }
{
    let mut total = Fen(0);
    let mut penalties = Fen(0);
    for i in 0..n {
        let pay = pay_at(sheet, i, price1, price2);
        let owed = owed_at(sheet, i, price1, price2);
        put_cell(sheet, PAY, i, pay.0);
        put_cell(sheet, OWED, i, owed.0);
        total += pay;
        penalties += owed;
    }
    Accounts { total, penalties }
}
