// Shelf files: the file of a listing, and the listing that a file opens to. `specs/` states them,
// `proofs/` proves that each listing has one; of the code only the refusals stand here.
#![tactic(auto)]

ghost use Rattle.std.specs.Prelude.{◌≡◌};
ghost use Rattle.files.specs.Faults.{shelving_number, opening_number, opening_place};
ghost use Rattle.files.specs.declared.ShelvingFault.TheVariants as shelving;
ghost use Rattle.files.specs.declared.OpeningFault.TheVariants as opening;

use groups::Refusal;
use sheets::grounds::Rule;

// The bytes that the longest file has.
pub const FILE_ROOM: usize = 2051;

// Why no file is written.
#[derive(Clone, Copy)]
pub enum ShelvingFault {
    // A part of the listing has a wrong length: banks (1), sheet (2) or list (3).
    Length(Rule),
    // The buffer has no room for the longest file.
    NoRoom,
}

impl From<Rule> for ShelvingFault {
    ghost from_gives = { λ rule fault. fault ≡ shelving.Length rule };

    fn from(rule: Rule) -> ShelvingFault {
        ShelvingFault::Length(rule)
    }
}

impl From<ShelvingFault> for u8 {
    ghost from_gives = { λ fault n. n ≡ shelving_number fault };

    // A fault's number.
    fn from(fault: ShelvingFault) -> u8 {
        match fault {
            ShelvingFault::Length(rule) => u8::from(rule),
            ShelvingFault::NoRoom => 32,
        }
    }
}

// Why no file is opened.
#[derive(Clone, Copy)]
pub enum OpeningFault {
    // A buffer has a wrong length: banks (1), sheet (2) or list (3).
    Length(Rule),
    // The file is refused.
    File(Refusal),
}

impl From<Rule> for OpeningFault {
    ghost from_gives = { λ rule fault. fault ≡ opening.Length rule };

    fn from(rule: Rule) -> OpeningFault {
        OpeningFault::Length(rule)
    }
}

impl From<Refusal> for OpeningFault {
    ghost from_gives = { λ refusal fault. fault ≡ opening.File refusal };

    fn from(refusal: Refusal) -> OpeningFault {
        OpeningFault::File(refusal)
    }
}

impl From<OpeningFault> for u8 {
    ghost from_gives = { λ fault n. n ≡ opening_number fault };

    // A fault's number.
    fn from(fault: OpeningFault) -> u8 {
        match fault {
            OpeningFault::Length(rule) => u8::from(rule),
            OpeningFault::File(refusal) => u8::from(refusal.fault),
        }
    }
}

impl OpeningFault {
    // Where the file is refused; 0 where it wasn't looked at.
    pub fn place(self) -> usize
        ensures { result ≡ opening_place self }
    {
        match self {
            OpeningFault::Length(_) => 0,
            OpeningFault::File(refusal) => refusal.at,
        }
    }
}
