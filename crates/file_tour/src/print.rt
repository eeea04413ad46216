// In words what the program prints. The types of other crates cannot get their Display here, so each is shown by a struct of this crate.
use event_file::Found;
use rules::{Event, Refusal, Role};
use std::fmt;

#[derive(Clone, Copy)]
pub(crate) struct Side(pub Role);

impl fmt::Display for Side {
    fn fmt<W: fmt::Write>(&self, f: &mut fmt::Formatter<W>) -> fmt::Result {
        match self.0 {
            Role::Client => write!(f, "client"),
            Role::Server => write!(f, "server"),
        }
    }
}

#[derive(Clone, Copy)]
pub(crate) struct Words(pub Event);

impl fmt::Display for Words {
    fn fmt<W: fmt::Write>(&self, f: &mut fmt::Formatter<W>) -> fmt::Result {
        match self.0 {
            Event::Create { thread, role } => write!(f, "create thread {thread} {}", Side(role)),
            Event::Give {
                timeslice,
                thread,
                priority,
                quantum,
            } => write!(
                f,
                "give timeslice {timeslice} to thread {thread} priority {priority} quantum {quantum}"
            ),
            Event::Call { server } => write!(f, "call server {server}"),
            Event::Reply => write!(f, "reply"),
            Event::Block => write!(f, "block"),
            Event::Wake { thread } => write!(f, "wake thread {thread}"),
            Event::Charge { units } => write!(f, "charge {units}"),
            Event::Abort { thread } => write!(f, "abort thread {thread}"),
            Event::Refill { timeslice } => write!(f, "refill timeslice {timeslice}"),
            Event::Remove { thread } => write!(f, "remove thread {thread}"),
            Event::Rank {
                timeslice,
                priority,
            } => write!(f, "rank timeslice {timeslice} priority {priority}"),
        }
    }
}

// What a step found.
#[derive(Clone, Copy)]
pub(crate) struct Stood(pub Found);

impl fmt::Display for Stood {
    fn fmt<W: fmt::Write>(&self, f: &mut fmt::Formatter<W>) -> fmt::Result {
        match self.0 {
            Found::Record(event) => write!(f, "{}", Words(event)),
            Found::End => write!(f, "end"),
            Found::Bad => write!(f, "no good record"),
        }
    }
}

// The refusal number of an answer, 0 for none.
#[derive(Clone, Copy)]
pub(crate) struct Number(pub Result<usize, Refusal>);

impl fmt::Display for Number {
    fn fmt<W: fmt::Write>(&self, f: &mut fmt::Formatter<W>) -> fmt::Result {
        write!(f, "refusal {}", Refusal::number_in(self.0))
    }
}
