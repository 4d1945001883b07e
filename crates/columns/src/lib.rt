// What several crates need to say about lists and numbers: definitions in specs/, laws in proofs/. A column is a slice of numbers, one
// for each row.
#![tactic(auto)]

ghost use Rattle.std.specs.Prelude.{◌≡◌, cond, ◌+◌, ◌-◌, ◌/◌, ◌^◌, ◌<◌, ◌≤◌, ℕ, Bool, length};
ghost use Rattle.std.specs.Fn.{FnReturnsAt};
ghost use Rattle.columns.specs.Lists.{Lists, listing, Tells};
ghost use Rattle.columns.specs.Sum.{bit, whole};

// A column's number with room to add up.
pub fn wide(x: u32) -> u64
    ensures { (result ≡ x) × (result < 2 ^ 32) }
{
    u64::from(x)
}

// A column's number that counts if a test passed. A product, since a branch on what stands in a row is mispredicted.
pub fn counted(t: bool, x: u32) -> u32
    ensures { result ≡ cond t x 0 }
{
    x * u32::from(t)
}

// 1 if a test passed.
pub fn one_if(t: bool) -> usize
    ensures { (result ≡ bit t) × (result ≤ 1) }
{
    usize::from(t)
}

// A position, read from a list of them: it is below 256, so a byte holds it.
pub fn position(i: u8) -> usize
    ensures { (result ≡ i) × (result < 256) }
{
    usize::from(i)
}

// The sum of a column.
pub fn total_of(column: &[u32]) -> u64
    requires { length column.now ≤ 256 }
    ensures { result ≡ whole column.now }
{
    column.iter().map(|x| wide(*x)).sum()
}

// The positions of a column that pass a test, in order. The result is how many they are.
pub fn list_where<T, F: Fn(&T) -> bool>(column: &[T], passes: F, list: &mut [u8; 256]) -> usize
    requires short { length column.now ≤ 256 }
    requires room { length list.old ≡ 256 }
    requires callable { F.IsAlwaysCallable passes }
    ensures few { result ≤ length column.now }
    ensures listed { (test : ℕ → Bool) → Tells column.now (FnReturnsAt F.Fn passes) test
        → Lists (length column.now) test list.new result }
    ensures written { (test : ℕ → Bool) → Tells column.now (FnReturnsAt F.Fn passes) test
        → list.new ≡ listing test list.old (length column.now) }
{
    let mut m = 0;
    for (i, x) in column.iter().enumerate() {
        list[m] = i as u8;
        m += one_if(passes(x));
    }
    m
}

// A number inside a range, half way: for a search by halving.
pub fn middle(lo: u64, hi: u64) -> u64
    requires { lo + 1 < hi }
    ensures { (result ≡ lo + (hi - lo) / 2) × (lo < result) × (result < hi) }
{
    lo.midpoint(hi)
}
