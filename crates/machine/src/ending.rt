// How a run stands where it is left, and why there may be none.
use std::error::Error;
use std::fmt;

// How a machine stands: it can go on, or has halted so.
#[derive(Clone, Copy, PartialEq, Eq, Debug)]
pub enum Status {
    Running,
    Done,
    NoCalls,
    NoRoom,
    Wild,
}

// How a halt with a number ends.
impl From<u32> for Status {
    ghost use Rattle.std.specs.Prelude.{◌≡◌};
    ghost use Rattle.machine.specs.Instructions.{ending};
    ghost use Rattle.machine.specs.Registers.{halted_as};

    ghost from_gives = { λ n status. halted_as status ≡ ending n };

    fn from(n: u32) -> Status {
        match n {
            1 => Status::Done,
            2 => Status::NoCalls,
            3 => Status::NoRoom,
            _ => Status::Wild,
        }
    }
}

// By hand, as for NotRun: a derived text has no contract.
impl fmt::Display for Status {
    ghost use Rattle.std.specs.Prelude.{Some};
    ghost use Rattle.machine.specs.Texts.{status_text};

    ghost output = { λ s. Some (status_text s) };

    fn fmt<W: fmt::Write>(&self, f: &mut fmt::Formatter<W>) -> fmt::Result {
        f.write_str(match self {
            Status::Running => "more",
            Status::Done => "done",
            Status::NoCalls => "no calls",
            Status::NoRoom => "no room",
            Status::Wild => "wild",
        })
    }
}

// How a run stands after its steps, and how many words it put out.
#[derive(Clone, Copy, PartialEq, Eq, Debug)]
pub struct Ran {
    pub status: Status,
    pub put: usize,
}

// Why there is no run: what it puts out does not fit, or its words and room do not.
#[derive(Clone, Copy, PartialEq, Eq, Debug)]
pub enum NotRun {
    OutFull,
    Small,
}

impl fmt::Display for NotRun {
    ghost use Rattle.std.specs.Prelude.{Some};
    ghost use Rattle.machine.specs.Texts.{not_run_text};

    ghost output = { λ e. Some (not_run_text e) };

    fn fmt<W: fmt::Write>(&self, f: &mut fmt::Formatter<W>) -> fmt::Result {
        f.write_str(match self {
            NotRun::OutFull => "out full",
            NotRun::Small => "small",
        })
    }
}

impl Error for NotRun {}
