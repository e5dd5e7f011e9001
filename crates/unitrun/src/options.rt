// The command line.
ghost use Rattle.std.specs.Prelude.{string_bytes};
ghost use Rattle.unitrun.specs.Lines.{NumberSays, BudgetSays, ChooseSays};

use crate::failure::Failure;
use decimal::parse;
use std::alloc::Global;
use std::str::FromStr;
use std::{env, fmt};
use thiserror::Error;

// How much a run may use.
#[derive(Clone, Copy, PartialEq, Eq, Debug)]
pub struct Budgets {
    pub room: u32,
    pub calls: u32,
    pub steps: u32,
}

// What a run may use where the line does not say.
impl Default for Budgets {
    ghost use Rattle.std.specs.Prelude.{◌≡◌};

    ghost is_default = { λ b. b ≡ record { room = 65536; calls = 1000000; steps = 4294967295 } };

    fn default() -> Budgets {
        Budgets {
            room: 65_536,
            calls: 1_000_000,
            steps: u32::MAX,
        }
    }
}

#[derive(Debug, Drop, PartialEq, Eq)]
pub enum Command {
    Help,
    Version,
    Run(Vec<String>),
    Image(Vec<String>),
    Code(String),
}

#[derive(Debug, Drop, PartialEq, Eq)]
pub struct Options {
    pub budgets: Budgets,
    pub command: Command,
}

// An option whose value is the argument behind it.
#[derive(Clone, Copy, PartialEq, Eq, Debug)]
pub enum Flag {
    Room,
    Calls,
    Steps,
    Code,
}

// A text that is the name of no such option.
#[derive(Clone, Copy, PartialEq, Eq, Debug, Error)]
#[error("no option with a value has this name")]
pub struct NoFlag;

impl FromStr for Flag {
    type Err = NoFlag;

    ghost use Rattle.unitrun.specs.Flags.{ReadsFlag};

    ghost from_str_gives = { ReadsFlag };

    fn from_str(text: &str) -> Result<Flag, NoFlag> {
        match text {
            "--room" => Ok(Flag::Room),
            "--calls" => Ok(Flag::Calls),
            "--steps" => Ok(Flag::Steps),
            "--code" => Ok(Flag::Code),
            _ => Err(NoFlag),
        }
    }
}

// By hand: a derived text has no contract.
impl fmt::Display for Flag {
    ghost use Rattle.std.specs.Prelude.{Some};
    ghost use Rattle.unitrun.specs.Flags.{flag_name};

    ghost output = { λ flag. Some (flag_name flag) };

    fn fmt<W: fmt::Write>(&self, f: &mut fmt::Formatter<W>) -> fmt::Result {
        f.write_str(match self {
            Flag::Room => "--room",
            Flag::Calls => "--calls",
            Flag::Steps => "--steps",
            Flag::Code => "--code",
        })
    }
}

impl Budgets {
    // The same, with the one that an option names set to its value.
    fn with(self, flag: Flag, text: String) -> Result<Budgets, Failure>
        ensures { BudgetSays flag (string_bytes text) self result }
    {
        let n = number(flag, text)?;
        Ok(match flag {
            Flag::Room => Budgets { room: n, ..self },
            Flag::Calls => Budgets { calls: n, ..self },
            Flag::Steps => Budgets { steps: n, ..self },
            Flag::Code => self,
        })
    }
}

impl Options {
    pub fn read(rt: &HostRuntime) -> Result<Options, Failure> {
        let mut line = Line::new(rt.alloc());
        for arg in env::args(rt)?.skip(1) {
            line.take(arg)?;
        }
        line.options()
    }
}

// What has been read of the line: an option may be waiting for its value, and help or the version may have been asked for.
#[derive(Debug, Drop, PartialEq, Eq)]
struct Line {
    budgets: Budgets,
    waiting: Option<Flag>,
    asked: Option<Command>,
    image: bool,
    code: Option<String>,
    objects: Vec<String>,
}

impl Line {
    fn new(alloc: Global) -> Line {
        Line {
            budgets: Budgets::default(),
            waiting: None,
            asked: None,
            image: false,
            code: None,
            objects: Vec::new(alloc),
        }
    }

    fn take(&mut self, arg: String) -> Result<(), Failure> {
        match self.waiting.take() {
            Some(flag) => self.set(flag, arg),
            None => self.start(arg),
        }
    }

    fn start(&mut self, arg: String) -> Result<(), Failure> {
        match arg.as_str() {
            "--help" => self.asked = Some(Command::Help),
            "--version" => self.asked = Some(Command::Version),
            "--image" => self.image = true,
            text => match text.parse() {
                Ok(flag) => self.waiting = Some(flag),
                Err(NoFlag) if text.starts_with('-') => return Err(Failure::Unknown(arg)),
                Err(NoFlag) => self.objects.push(arg)?,
            },
        }
        Ok(())
    }

    fn set(&mut self, flag: Flag, text: String) -> Result<(), Failure> {
        match flag {
            Flag::Code => self.code = Some(text),
            _ => self.budgets = self.budgets.with(flag, text)?,
        }
        Ok(())
    }

    // What the whole line asks for.
    fn options(self) -> Result<Options, Failure> {
        let Line {
            budgets,
            waiting,
            asked,
            image,
            code,
            objects,
        } = self;
        let command = match (asked, waiting) {
            (Some(command), _) => command,
            (None, Some(flag)) => return Err(Failure::NoValue(flag)),
            (None, None) => choose(image, code, objects)?,
        };
        Ok(Options { budgets, command })
    }
}

// An image from a file stands alone; objects are run, or only linked.
fn choose(image: bool, code: Option<String>, objects: Vec<String>) -> Result<Command, Failure>
    ensures { ChooseSays image code objects result }
{
    match code {
        Some(_) if image || !objects.is_empty() => Err(Failure::CodeAndMore),
        Some(name) => Ok(Command::Code(name)),
        None if objects.is_empty() => Err(Failure::Nothing),
        None if image => Ok(Command::Image(objects)),
        None => Ok(Command::Run(objects)),
    }
}

// The number that an option's value is.
fn number(flag: Flag, text: String) -> Result<u32, Failure>
    ensures { NumberSays (string_bytes text) result }
{
    parse(text.as_str()).ok_or_else(|| Failure::NoNumber { flag, text })
}
