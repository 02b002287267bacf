// Why something is refused (R1 to R14): a name for each row, and its number.
// Whatever can be refused answers with one of these in a Result; numbers are for C and for what is printed.
#![tactic(auto)]

ghost use Rattle.std.specs.Prelude.{◌≡◌};
ghost use Rattle.refusal.specs.Refusal.{number_of, numbered};

use std::error::Error;
use std::fmt;

#[derive(Clone, Copy, Debug, PartialEq, Eq)]
pub enum Refusal {
    // the table is not fit (R1)
    Unfit = 1,
    // a port that there is not (R2)
    NoPort,
    // no LLDP frame (R3)
    NoFrame,
    // one of the first three TLVs is not as it should be (R4)
    NotAsDue,
    // a TLV runs past the end (R5)
    RunsPast,
    // a later TLV may not stand where it does (R6)
    OutOfPlace,
    // the port holds as many as it may (R7)
    PortFull,
    // the common places are taken (R8)
    CommonTaken,
    // a description breaks a rule (R9)
    BreaksARule,
    // the output is too short (R10)
    NoRoom,
    // no capture (R11)
    NoCapture,
    // a capture ends inside a record (R12)
    Torn,
    // the chassis holds as many on the port as it may (R13)
    ChassisLoud,
    // the list is too short (R14)
    TooShort,
}

impl From<Refusal> for u8 {
    ghost from_gives = { λ r n. n ≡ number_of r };

    fn from(r: Refusal) -> u8 {
        r as u8
    }
}

// A number that is none of a refusal.
#[derive(Clone, Copy, Debug, PartialEq, Eq)]
pub struct NoRefusal {
    pub number: u8,
}

impl TryFrom<u8> for Refusal {
    type Error = NoRefusal;

    ghost try_from_gives = { λ n r. r ≡ numbered n };

    fn try_from(n: u8) -> Result<Refusal, NoRefusal> {
        match n {
            1 => Ok(Refusal::Unfit),
            2 => Ok(Refusal::NoPort),
            3 => Ok(Refusal::NoFrame),
            4 => Ok(Refusal::NotAsDue),
            5 => Ok(Refusal::RunsPast),
            6 => Ok(Refusal::OutOfPlace),
            7 => Ok(Refusal::PortFull),
            8 => Ok(Refusal::CommonTaken),
            9 => Ok(Refusal::BreaksARule),
            10 => Ok(Refusal::NoRoom),
            11 => Ok(Refusal::NoCapture),
            12 => Ok(Refusal::Torn),
            13 => Ok(Refusal::ChassisLoud),
            14 => Ok(Refusal::TooShort),
            _ => Err(NoRefusal { number: n }),
        }
    }
}

impl fmt::Display for Refusal {
    fn fmt<W: fmt::Write>(&self, f: &mut fmt::Formatter<W>) -> fmt::Result {
        write!(f, "refused {}", u8::from(*self))
    }
}

impl Error for Refusal {}

impl fmt::Display for NoRefusal {
    fn fmt<W: fmt::Write>(&self, f: &mut fmt::Formatter<W>) -> fmt::Result {
        write!(f, "no refusal has number {}", self.number)
    }
}

impl Error for NoRefusal {}
