//! Why a meter stops.
ghost use Rattle.std.specs.Prelude.{◌≡◌};
ghost use Rattle.meter.specs.Faults.{opening_fault};
ghost use Rattle.meter.specs.declared.fault.Fault.TheVariants as fault;

use gui_base::{NoMemory, Refusal};
use gui_edge::{Failed, OpenFault};
use std::io;
use thiserror::Error;

#[derive(Debug, Drop, Error)]
pub enum Fault {
    #[error("no memory")]
    NoMemory,
    #[error("the panel cannot be opened")]
    Unopened,
    #[error("a change was refused")]
    Refused(Refusal),
    #[error("pixels did not come to the panel")]
    Unsent,
    #[error("a frame could not be written")]
    Unwritten,
    #[error("the numbers could not be read")]
    Unread,
}

impl From<NoMemory> for Fault {
    ghost from_gives = { λ x y. y ≡ fault.NoMemory };

    fn from(_: NoMemory) -> Fault {
        Fault::NoMemory
    }
}

impl From<OpenFault> for Fault {
    ghost from_gives = { λ x y. y ≡ opening_fault x };

    fn from(fault: OpenFault) -> Fault {
        match fault {
            OpenFault::Failed => Fault::Unopened,
            OpenFault::NoMemory => Fault::NoMemory,
        }
    }
}

impl From<Refusal> for Fault {
    ghost from_gives = { λ x y. y ≡ fault.Refused x };

    fn from(refusal: Refusal) -> Fault {
        Fault::Refused(refusal)
    }
}

impl From<Failed> for Fault {
    ghost from_gives = { λ x y. y ≡ fault.Unwritten };

    fn from(_: Failed) -> Fault {
        Fault::Unwritten
    }
}

impl From<io::Error> for Fault {
    ghost from_gives = { λ x y. y ≡ fault.Unread };

    fn from(_: io::Error) -> Fault {
        Fault::Unread
    }
}
