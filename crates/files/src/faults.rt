// Why a file is refused, or contents, or a buffer: the faults by name, each with its number (01, Numbers of refusal; 02, request 6).
ghost use Rattle.std.specs.Prelude.{◌≡◌, ◌≤◌};
ghost use Rattle.files.specs.Verdict.{fault_number, refused};

#[derive(Clone, Copy, PartialEq, Eq)]
pub enum Fault {
    // Shorter than its head.
    ShortHead,
    // A mark that is none of an interval file's.
    UnknownMark,
    // A field of a head out of its range.
    HeadRange,
    // Not as long as its head says.
    WrongLength,
    // A row's mark.
    RowMark,
    // A field of a row out of its range.
    RowRange,
    // A row's id that is not above the id before it.
    RowOrder,
    // A correction that is wrong by itself.
    BadCorrection,
    // A correction of another day or quarter.
    OtherQuarter,
    // A correction's row that corrects none of the interval's.
    NoSuchRow,
    // A buffer shorter than what is to be put there.
    ShortBuffer,
    // Terms that no head may state.
    TermsRange,
}

impl Fault {
    pub fn number(self) -> usize
        ensures { (result ≡ fault_number self) × (result ≤ 14) }
    {
        match self {
            Fault::ShortHead => 1,
            Fault::UnknownMark => 2,
            Fault::HeadRange => 3,
            Fault::WrongLength => 4,
            Fault::RowMark => 5,
            Fault::RowRange => 6,
            Fault::RowOrder => 7,
            Fault::BadCorrection => 8,
            Fault::OtherQuarter => 9,
            Fault::NoSuchRow => 10,
            Fault::ShortBuffer => 11,
            Fault::TermsRange => 14,
        }
    }
}

// A fault and its place: of rows the first is 1, and 0 stands for the whole.
#[derive(Clone, Copy, PartialEq, Eq)]
pub struct Refusal {
    pub fault: Fault,
    pub place: usize,
}

// A fault of the whole.
impl From<Fault> for Refusal {
    ghost from_gives = { λ fault refusal. refusal ≡ refused fault 0 };

    fn from(fault: Fault) -> Refusal {
        Refusal { fault, place: 0 }
    }
}
