// What an instruction is, as a number in code.
use std::error::Error;
use std::fmt;

// The opcodes, in the order of the table of instructions; an opcode's number is its place there.
#[derive(Clone, Copy, PartialEq, Eq, Debug)]
pub enum Opcode {
    Halt = 0,
    Push = 1,
    Arg = 2,
    Load = 3,
    Store = 4,
    Operate = 5,
    JumpIfZero = 6,
    Jump = 7,
    Call = 8,
    SetFrame = 9,
    Return = 10,
    Out = 11,
    Next = 12,
    Pop = 13,
    Reserve = 14,
    Release = 15,
    Count = 16,
}

// A number that is no opcode's.
#[derive(Clone, Copy, PartialEq, Eq, Debug)]
pub struct UnknownOpcode(pub u32);

impl TryFrom<u32> for Opcode {
    type Error = UnknownOpcode;

    ghost use Rattle.machine.specs.Opcodes.{Decoded};

    ghost try_from_gives = { Decoded };

    fn try_from(number: u32) -> Result<Opcode, UnknownOpcode> {
        match number {
            0 => Ok(Opcode::Halt),
            1 => Ok(Opcode::Push),
            2 => Ok(Opcode::Arg),
            3 => Ok(Opcode::Load),
            4 => Ok(Opcode::Store),
            5 => Ok(Opcode::Operate),
            6 => Ok(Opcode::JumpIfZero),
            7 => Ok(Opcode::Jump),
            8 => Ok(Opcode::Call),
            9 => Ok(Opcode::SetFrame),
            10 => Ok(Opcode::Return),
            11 => Ok(Opcode::Out),
            12 => Ok(Opcode::Next),
            13 => Ok(Opcode::Pop),
            14 => Ok(Opcode::Reserve),
            15 => Ok(Opcode::Release),
            16 => Ok(Opcode::Count),
            17..=u32::MAX => Err(UnknownOpcode(number)),
        }
    }
}

impl From<Opcode> for u32 {
    ghost use Rattle.machine.specs.Opcodes.{Encoded};

    ghost from_gives = { Encoded };

    fn from(opcode: Opcode) -> u32 {
        opcode as u32
    }
}

// By hand: a derived text has no contract.
impl fmt::Display for UnknownOpcode {
    ghost use Rattle.std.specs.Prelude.{Some};
    ghost use Rattle.machine.specs.Texts.{unknown_text};

    ghost output = { λ e. Some (unknown_text e) };

    fn fmt<W: fmt::Write>(&self, f: &mut fmt::Formatter<W>) -> fmt::Result {
        write!(f, "no opcode has number {}", self.0)
    }
}

impl Error for UnknownOpcode {}
