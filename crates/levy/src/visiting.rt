// How much work the rounds were (02, request 8): payer visits, told by the closing rounds.
ghost use Rattle.std.specs.Prelude.{◌≡◌, cond, ◌≤◌, ltb};
ghost use Rattle.levy.specs.Rounds.{looks, visits_told};
ghost use Rattle.levy.specs.Asked.{Countable};

// How often one position was looked at: in every round up to the one that closed it, or in all of them and in the quiet one.
#[tactic(auto, unfolding(crate::specs::Rounds::looks))]
fn visits_at(weight: u32, mark: u32, rounds: u32) -> u32
    requires { rounds ≤ 256 }
    ensures { result ≡ cond (ltb 0 weight) (looks rounds mark) 0 }
{
    let all = rounds + 1;
    if weight == 0 {
        0
    } else if mark == 0 {
        all
    } else {
        mark
    }
}

// All visits, once the rounds have ended.
pub fn count_visits(weights: &[u32], marks: &[u32], rounds: u32) -> u32
    requires { Countable weights.now marks.now rounds }
    ensures { result ≡ visits_told weights.now marks.now rounds }
{
    let mut visits = 0;
    for (weight, mark) in weights.iter().zip(marks) {
        visits += visits_at(*weight, *mark, rounds);
    }
    visits
}
