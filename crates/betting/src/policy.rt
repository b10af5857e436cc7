ghost use Rattle.std.specs.Prelude.{◌≡◌, ℕ, ◌≤◌};

/// How much of its wealth an assertion bets on the next card, in thousandths.
///
/// A policy means a state. The state alone fixes the bet, and with a value the next state.
pub trait Policy {
    ghost State: { Type 0 };

    ghost state: { Self → State };

    ghost bets: { State → ℕ };

    ghost told: { State → ℕ → State };

    /// The bet on the next card.
    fn bet(&self) -> u16
        ensures { result ≡ bets (state self.now) };

    /// Takes notice of a card's value.
    fn tell(&mut self, value: u16)
        ensures { state self.new ≡ told (state self.old) value };

    ghost modest: { (s : State) → bets s ≤ 1000 };
}
