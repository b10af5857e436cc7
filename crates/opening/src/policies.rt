ghost use Rattle.std.specs.Prelude.{◌≡◌};
ghost use Rattle.betting.specs.Policies.{chosen_state};
ghost use Rattle.opening.specs.Starts.{first_state};

use assertion::Planned;
use betting::{ChosenPolicy, Fixed, Shrinking};
use setup::PolicyChoice;

/// The policy of a planned assertion before the first card; where no shrinking policy begins, which
/// happens in no accepted setup, the bet stays the first.
pub fn first_policy(planned: &Planned, choice: PolicyChoice) -> ChosenPolicy
    ensures { chosen_state result ≡ first_state choice planned.now }
{
    let bet = planned.first_bet;
    let fixed = ChosenPolicy::Fixed(Fixed { bet });
    match choice {
        PolicyChoice::Fixed => fixed,
        PolicyChoice::Shrinking { weight } => {
            let half = planned.assertion.half();
            let top = planned.assertion.top();
            Shrinking::new(bet, weight, half, top).map_or(fixed, ChosenPolicy::Shrinking)
        }
    }
}
