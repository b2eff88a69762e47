//! What a lock can be put round.
ghost use Rattle.std.specs.Prelude.{ℕ, ◌+◌, List};
ghost use Rattle.fire_lock.specs.declared.entry.Entry.{Entry};
ghost use Rattle.fire_lock.specs.History.{Reached, own};

/// A machine that events are played on, each of which it replies to.
pub trait Machine {
    type Event;

    type Reply;

    // Nothing was played on the machine yet.
    ghost starts: { Self → Type 0 };

    // The machine before, the number of the pass that steps, the event, the reply, and the machine after.
    ghost plays: { Self → ℕ → Self.Event → Self.Reply → Self → Type 0 };

    // When the event may be played under this number.
    ghost can: { Self → ℕ → Self.Event → Type 0 };

    // What the entries of one number in a history have to be, for the event to come next under this number.
    ghost fits: { List (Entry Self.Event Self.Reply) → Self.Event → Type 0 };

    /// Plays one event under the number of the pass that steps.
    fn play(&mut self, number: u32, event: Self::Event) -> Self::Reply
        requires { can self.old number event }
        ensures { plays self.old number event result self.new };

    /// Whether a step with this reply is news for those that found nothing to do, and wakes them.
    fn news(reply: &Self::Reply) -> bool;

    // Where a history leads to the machine, what fits the entries of one number can be played under this number.
    ghost may: { (s : Self) (log : List (Entry Self.Event Self.Reply)) (m : Self) (n : ℕ) (e : Self.Event) → starts s → Reached plays s log m → fits (own n (n + 1) log) e → can m n e };
}
