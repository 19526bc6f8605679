ghost use Rattle.std.specs.Prelude.{List};
ghost use Rattle.qx_types.specs.declared.outcome.Answer.{Answer};
ghost use Rattle.qx_machine.specs.declared.rows.WaitingCall.{WaitingCall};

/// What a manager keeps for a user (`Self`), beside what all users share (`W`), in which calls wait. Its tables of functions
/// see both as one (`T`).
pub trait State<W, T> {
    /// What the tables work on.
    ghost told: { Self → W → T };

    /// What all users share once a user's part of both is that, and these answers were given, in order. Most managers keep
    /// nothing there.
    ghost shared: { Self → W → T → List (WaitingCall × Answer) → W } = { λ _ waits _ _. waits };

    /// What a function may count on. Most managers ask nothing.
    ghost fits: { Self → W → Type 0 } = { λ _ _. Unit {0} };

    /// What no function changes. Most managers ask nothing.
    ghost same: { Self → Self → Type 0 } = { λ _ _. Unit {0} };
}
