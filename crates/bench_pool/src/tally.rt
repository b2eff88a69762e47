//! A machine that adds up.
ghost use Rattle.std.specs.Prelude.{◌≡◌, ◌+◌, ◌%◌, ◌^◌};

use fire_lock::Machine;

#[derive(Drop)]
pub struct Tally {
    pub sum: u64,
}

impl Machine for Tally {
    type Event = u64;

    /// The sum before.
    type Reply = u64;

    ghost starts = { λ m. m.sum ≡ 0 };

    ghost plays = { λ m number event reply m'. (m'.sum ≡ (m.sum + event) % 2 ^ 64) × (reply ≡ m.sum) };

    ghost can = { λ m number event. Unit {0} };

    ghost fits = { λ own event. Unit {0} };

    ghost may = { λ s log m n e _ _ _. tt };

    fn play(&mut self, _number: u32, event: u64) -> u64 {
        let reply = self.sum;
        self.sum = reply.wrapping_add(event);
        reply
    }

    // Half of the replies, as where each claim of work is followed by its end.
    fn news(reply: &u64) -> bool {
        *reply % 2 == 1
    }
}
