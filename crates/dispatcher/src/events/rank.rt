// Document 02, [4]: Rank.
ghost use Rattle.std.specs.Prelude.{◌≡◌, true};
ghost use Rattle.rules.specs.declared.Event.TheVariants.{Rank};
ghost use Rattle.rules.specs.Events.{dispatch};
ghost use Rattle.dispatcher.specs.Shown.{shown, sound_machine};
ghost use Rattle.dispatcher.specs.Promise.{Answers, answered};

use crate::Machine;
use neighbours::joining::move_back;
use rules::Refusal;
use timeslices::rank::{detached, with_priority};

impl Machine {
    pub(crate) fn dispatch_rank(&mut self, t: u8, priority: u8) -> Result<u16, Refusal>
        requires { sound_machine self.old ≡ true }
        ensures { Answers (dispatch (Rank t priority) (shown self.old)) self.old (answered self.new result) }
    {
        self.check_listed(t)?;
        let apart = detached(self.timeslices, &self.after, self.live_timeslices, t);
        self.timeslices = with_priority(apart, t, priority);
        move_back(&mut self.before, &mut self.after, t);
        Ok(self.choose(0))
    }
}
