// The list of open payers (02, request 12): their positions in order, so that a round looks at nobody else. A position is below
// 256, so a byte holds it. Tests become numbers and not branches, since no processor can foresee who closes.
ghost use Rattle.std.specs.Prelude.{◌≡◌, cond, ◌^◌, ◌≤◌, ◌<◌, length};
ghost use Rattle.columns.specs.Lists.{Lists};
ghost use Rattle.levy.specs.Rounds.{is_payer};

use columns::wide;

// A figure that counts if the test passed, with room to add up.
pub fn counted(t: bool, x: u32) -> u64
    ensures { (result ≡ cond t x 0) × (result < 2 ^ 32) }
{
    wide(columns::counted(t, x))
}

// The list before the first round: whoever has weight. The result is how many they are.
pub fn list_payers(weights: &[u32], list: &mut [u8; 256]) -> usize
    requires { length weights.now ≤ 256 }
    ensures { Lists (length weights.now) (is_payer weights.now) list.new result }
{
    columns::list_where(weights, |weight| 0 < *weight, list)
}
