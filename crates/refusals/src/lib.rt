// Why a call refuses and which field of a job is out of range, by name, with the numbers that R24 and R36 give them. Assumes nothing.
#![tactic(auto)]

ghost use Rattle.std.specs.Prelude.{◌≡◌};
ghost use Rattle.refusals.specs.Numbers.{number_of, figure_of};

// Why a call refuses, from number 1 on (R24).
#[derive(Clone, Copy, PartialEq, Eq)]
pub enum Reason {
    OrderTooShort = 1,
    UnknownKind,
    TooManyJobs,
    WrongLength,
    BusFreeOutOfRange,
    JobOutOfRange,
    NumberRepeated,
    ProfileNotValid,
    TooMuchWeight,
    BufferTooShort,
    NoFeasibleChoice,
    CellTooCold,
    NotOfHalves,
    PlanWrongLength,
    PlanStrayBits,
    RepeatingNotValid,
    FrameTooLong,
    NoSheet,
    EveryPackZero,
}

impl Reason {
    // Its number.
    pub fn number(self) -> u32
        ensures { result ≡ number_of self }
    {
        self as u32
    }
}

// A field of a job, from figure 1 on, in the sequence of the packed record (R36).
#[derive(Clone, Copy, PartialEq, Eq)]
pub enum Field {
    Number = 1,
    Pack,
    Critical,
    Weight,
    Ready,
    Length,
    Deadline,
}

impl Field {
    // Its figure.
    pub fn figure(self) -> u32
        ensures { result ≡ figure_of self }
    {
        self as u32
    }
}
