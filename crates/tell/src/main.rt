#![tactic(auto)]

fn main() {
    telling::tell();
}
