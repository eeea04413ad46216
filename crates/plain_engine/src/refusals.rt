// Document 01, "Refusals, operation by operation", and the numbers of document 02: the first that fits.
ghost use Rattle.std.specs.Prelude.{◌≡◌};
ghost use Rattle.rules.specs.declared.Event.TheVariants.{Create, Give, Call, Reply, Block, Wake, Charge, Abort, Refill, Remove, Rank};
ghost use Rattle.rules.specs.Refusals.{refusal as refusal_of};
ghost use Rattle.rules.specs.RefusalNumbers.{number_in};
ghost use Rattle.plain_engine.specs.Shown.{plain_shown};
ghost use Rattle.plain_engine.specs.Refusing.{live_thread, live_timeslice};

use crate::PlainMachine;
use crate::slices::slice_at;
use rules::{Event, Hold, Refusal, Role, Running, Slice, Thread};
use tables::lookup::thread_at;
use tables::order::member;
use tables::records::is_linked;

impl PlainMachine {
    // "2 (number above 127)", "4 (no such live thread)"
    pub(crate) fn live_thread(&self, n: u8) -> Result<Thread, Refusal>
        ensures { result ≡ live_thread n (plain_shown self.now) }
    {
        if 127 < n {
            return Err(Refusal::AboveLimit);
        }
        let thread = thread_at(self.threads, n);
        if !thread.live {
            return Err(Refusal::NotLive);
        }
        Ok(thread)
    }

    // "2 (timeslice number)", "4 (no such live timeslice)"
    pub(crate) fn live_timeslice(&self, t: u8) -> Result<Slice, Refusal>
        ensures { result ≡ live_timeslice t (plain_shown self.now) }
    {
        if 127 < t {
            return Err(Refusal::AboveLimit);
        }
        if !member(self.order, self.live, t) {
            return Err(Refusal::NotLive);
        }
        Ok(slice_at(self.slices, t))
    }

    pub(crate) fn check_create(&self, n: u8, role: Role) -> Result<(), Refusal>
        ensures { number_in result ≡ refusal_of (Create n role) (plain_shown self.now) }
    {
        if 127 < n {
            return Err(Refusal::AboveLimit);
        }
        if thread_at(self.threads, n).live {
            return Err(Refusal::InUse);
        }
        Ok(())
    }

    pub(crate) fn check_give(&self, t: u8, n: u8, priority: u8, quantum: u16) -> Result<(), Refusal>
        ensures { number_in result ≡ refusal_of (Give t n priority quantum) (plain_shown self.now) }
    {
        if 127 < t || 127 < n {
            return Err(Refusal::AboveLimit);
        }
        if member(self.order, self.live, t) {
            return Err(Refusal::InUse);
        }
        self.live_thread(n)?;
        if self.owns_one(n) {
            return Err(Refusal::OwnsOne);
        }
        if quantum == 0 {
            return Err(Refusal::NoQuantum);
        }
        Ok(())
    }

    pub(crate) fn check_call(&self, server: u8) -> Result<(), Refusal>
        ensures { number_in result ≡ refusal_of (Call server) (plain_shown self.now) }
    {
        let Running::Runs { thread: caller, .. } = self.running else {
            return Err(Refusal::NothingRuns);
        };
        if self.live_thread(server)?.role != Role::Server {
            return Err(Refusal::NotAServer);
        }
        if server == caller {
            return Err(Refusal::Itself);
        }
        Ok(())
    }

    pub(crate) fn check_reply(&self) -> Result<(), Refusal>
        ensures { number_in result ≡ refusal_of Reply (plain_shown self.now) }
    {
        let Running::Runs { thread: server, .. } = self.running else {
            return Err(Refusal::NothingRuns);
        };
        if thread_at(self.threads, server).role != Role::Server {
            return Err(Refusal::RunsAClient);
        }
        Ok(())
    }

    pub(crate) fn check_block(&self) -> Result<(), Refusal>
        ensures { number_in result ≡ refusal_of Block (plain_shown self.now) }
    {
        if self.running == Running::Nothing {
            return Err(Refusal::NothingRuns);
        }
        Ok(())
    }

    pub(crate) fn check_wake(&self, n: u8) -> Result<(), Refusal>
        ensures { number_in result ≡ refusal_of (Wake n) (plain_shown self.now) }
    {
        if self.live_thread(n)?.hold != Hold::Blocked {
            return Err(Refusal::NotBlocked);
        }
        Ok(())
    }

    pub(crate) fn check_charge(&self, units: u16) -> Result<(), Refusal>
        ensures { number_in result ≡ refusal_of (Charge units) (plain_shown self.now) }
    {
        let Running::Runs { timeslice: t, .. } = self.running else {
            return Err(Refusal::NothingRuns);
        };
        if units == 0 || slice_at(self.slices, t).left < units {
            return Err(Refusal::BadCharge);
        }
        Ok(())
    }

    pub(crate) fn check_abort(&self, n: u8) -> Result<(), Refusal>
        ensures { number_in result ≡ refusal_of (Abort n) (plain_shown self.now) }
    {
        if !is_linked(self.live_thread(n)?.hold) {
            return Err(Refusal::NotLinked);
        }
        Ok(())
    }

    pub(crate) fn check_refill(&self, t: u8) -> Result<(), Refusal>
        ensures { number_in result ≡ refusal_of (Refill t) (plain_shown self.now) }
    {
        if self.live_timeslice(t)?.left != 0 {
            return Err(Refusal::NotSpent);
        }
        Ok(())
    }

    pub(crate) fn check_remove(&self, n: u8) -> Result<(), Refusal>
        ensures { number_in result ≡ refusal_of (Remove n) (plain_shown self.now) }
    {
        self.live_thread(n)?;
        Ok(())
    }

    pub(crate) fn check_rank(&self, t: u8, priority: u8) -> Result<(), Refusal>
        ensures { number_in result ≡ refusal_of (Rank t priority) (plain_shown self.now) }
    {
        self.live_timeslice(t)?;
        Ok(())
    }

    pub(crate) fn check(&self, e: Event) -> Result<(), Refusal>
        ensures { number_in result ≡ refusal_of e (plain_shown self.now) }
    {
        match e {
            Event::Create { thread, role } => self.check_create(thread, role),
            Event::Give {
                timeslice,
                thread,
                priority,
                quantum,
            } => self.check_give(timeslice, thread, priority, quantum),
            Event::Call { server } => self.check_call(server),
            Event::Reply => self.check_reply(),
            Event::Block => self.check_block(),
            Event::Wake { thread } => self.check_wake(thread),
            Event::Charge { units } => self.check_charge(units),
            Event::Abort { thread } => self.check_abort(thread),
            Event::Refill { timeslice } => self.check_refill(timeslice),
            Event::Remove { thread } => self.check_remove(thread),
            Event::Rank {
                timeslice,
                priority,
            } => self.check_rank(timeslice, priority),
        }
    }
}
