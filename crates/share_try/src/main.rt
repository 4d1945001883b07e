// Worked figures of the sharing rule (01, Checked figures, P7 and P8), run from code, proved and printed.
#![tactic(auto)]

ghost use Rattle.std.specs.Prelude.{◌≡◌};
ghost use Rattle.share.specs.Share.{shares};
ghost use Rattle.share.specs.Split.{Splittable};

// Three numbers on a line of their own.
fn show(column: [u64; 3]) {
    io::print_decimal(1, column[0]);
    io::write_all(1, b" ");
    io::print_decimal(1, column[1]);
    io::write_all(1, b" ");
    io::print_decimal(1, column[2]);
    io::write_all(1, b"\n");
}

// An amount over three weights, shown.
fn shown(amount: u64, weights: [u64; 3], first: usize) -> [u64; 3]
    requires { Splittable weights weights first }
    ensures { result ≡ shares amount weights first }
{
    let mut out = weights;
    share::split(amount, &weights, first, &mut out);
    show(out);
    out
}

fn main() {
    let p7 = shown(100, [1, 1, 1], 0);
    check::expect(p7[0] == 34);
    check::expect(p7[2] == 33);
    let p8 = shown(10, [3, 3, 1], 0);
    check::expect(p8[1] == 4);
    check::expect(p8[2] == 2);
    let second_first = shown(100, [1, 1, 1], 1);
    check::expect(second_first[0] == 33);
    check::expect(second_first[1] == 34);
    let wide = shown(
        12446744073709551613,
        [9223372036854775808, 9223372036854775806, 1],
        0,
    );
    check::expect(wide[0] == 6223372036854775807);
    check::expect(wide[1] == 6223372036854775805);
    check::expect(wide[2] == 1);
    let wide_tie = shown(
        18446744073709551614,
        [
            4611686018427387904,
            4611686018427387904,
            4611686018427387904,
        ],
        1,
    );
    check::expect(wide_tie[0] == 6148914691236517204);
    check::expect(wide_tie[1] == 6148914691236517205);
    let no_weight = shown(5, [0, 0, 0], 0);
    check::expect(no_weight[0] == 0);
}
