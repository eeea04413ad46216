// What is wrong with a line. On paper it is a number: its conversion to a byte.
ghost use Rattle.std.specs.Prelude.{◌≡◌};
ghost use Rattle.list_line.specs.Faults.{number_of};

#[derive(Clone, Copy, Debug, PartialEq, Eq)]
pub enum Fault {
    NoSuchEvent,
    Missing,
    OneTooMany,
    Above255,
    Above65535,
    NeitherRole,
    TooLong,
}

impl From<Fault> for u8 {
    ghost from_gives = { λ fault number. number ≡ number_of fault };

    fn from(fault: Fault) -> u8 {
        match fault {
            Fault::NoSuchEvent => 1,
            Fault::Missing => 2,
            Fault::OneTooMany => 3,
            Fault::Above255 => 4,
            Fault::Above65535 => 5,
            Fault::NeitherRole => 6,
            Fault::TooLong => 7,
        }
    }
}
