// What each instruction does to the registers and the memory, in the order of the table of instructions.
ghost use Rattle.std.specs.Prelude.{◌≡◌, ◌-◌, ◌%◌, ◌^◌, ◌≤◌, length, slice_index};
ghost use Rattle.machine.specs.Instructions.{act, Halt, Push, Arg, Load, Store, Operate, JumpIfZero, Jump, Call, SetFrame, Return, Pop, Reserve, Release, Count};
ghost use Rattle.machine.specs.Registers.{Ready, Acted, ActedAlone, PutOut, TookNext, with_status, next_registers};

use crate::ending::Status;
use crate::memory::keep;
use crate::registers::Registers;
use rows::operations::Operation;
use rows::words::word_at;

// The word that a number is modulo 2^32.
fn low_word(x: usize) -> u32
    ensures { result ≡ x % 2 ^ 32 }
{
    (x % 0x1_0000_0000) as u32
}

impl Registers {
    // The top of the stack; with sp at 0 it is word 0.
    pub fn top(self, memory: &[u32]) -> u32
        ensures { result ≡ slice_index memory.now (self.sp - 1) }
    {
        word_at(memory, self.sp.saturating_sub(1))
    }

    // On to the instruction behind this one.
    pub fn next(self) -> Registers
        requires { Ready self }
        ensures { result ≡ next_registers self }
    {
        Registers {
            pc: self.pc + 2,
            ..self
        }
    }

    // The machine stops.
    pub fn stop(self, status: Status) -> Registers
        ensures { result ≡ with_status self status }
    {
        Registers { status, ..self }
    }

    // set_frame, pop and reserve take what they do not use, so that `then` takes them by name as it takes operate and return_from.
    // `Ready` is a clause of each instruction and no invariant: every step raises the bound in it by 2, so no one bound holds of all
    // registers.

    // 0: halt with n.
    pub fn halt(self, n: u32) -> Registers
        ensures { ActedAlone self result (act Halt n) }
    {
        self.stop(Status::from(n))
    }

    // 1: push n.
    pub fn push(self, n: u32, memory: &mut [u32]) -> Registers
        requires { Ready self }
        ensures { Acted self result memory.old memory.new (act Push n) }
    {
        keep(memory, self.sp, n);
        Registers {
            sp: self.sp + 1,
            ..self.next()
        }
    }

    // 2: push the word at fp + n.
    pub fn push_argument(self, n: u32, memory: &mut [u32]) -> Registers
        requires { Ready self }
        ensures { Acted self result memory.old memory.new (act Arg n) }
    {
        let v = word_at(memory, self.fp + n as usize);
        self.push(v, memory)
    }

    // 3: push the word at n.
    pub fn load(self, n: u32, memory: &mut [u32]) -> Registers
        requires { Ready self }
        ensures { Acted self result memory.old memory.new (act Load n) }
    {
        let v = word_at(memory, n as usize);
        self.push(v, memory)
    }

    // 4: keep the top at n.
    pub fn store(self, n: u32, memory: &mut [u32]) -> Registers
        requires { Ready self }
        ensures { Acted self result memory.old memory.new (act Store n) }
    {
        let top = self.top(memory);
        keep(memory, n as usize, top);
        self.next()
    }

    // 5: operation n on the two topmost.
    pub fn operate(self, n: u32, memory: &mut [u32]) -> Registers
        requires { Ready self }
        ensures { Acted self result memory.old memory.new (act Operate n) }
    {
        let x = word_at(memory, self.sp.saturating_sub(2));
        let y = self.top(memory);
        let Ok(operation) = Operation::try_from(n) else {
            return self.stop(Status::Wild);
        };
        keep(memory, self.sp.saturating_sub(2), operation.apply(x, y));
        Registers {
            sp: self.sp.saturating_sub(1),
            ..self.next()
        }
    }

    // 6: pop, go to n if it was 0.
    pub fn jump_if_zero(self, n: u32, memory: &mut [u32]) -> Registers
        requires { Ready self }
        ensures { Acted self result memory.old memory.new (act JumpIfZero n) }
    {
        let sp = self.sp.saturating_sub(1);
        if self.top(memory) == 0 {
            return Registers {
                pc: n as usize,
                sp,
                ..self
            };
        }
        Registers { sp, ..self.next() }
    }

    // 7: go to n.
    pub fn jump(self, n: u32) -> Registers
        requires { Ready self }
        ensures { ActedAlone self result (act Jump n) }
    {
        Registers {
            pc: n as usize,
            ..self
        }
    }

    // 8: push the place behind this instruction and fp, go to n.
    pub fn call(self, n: u32, memory: &mut [u32]) -> Registers
        requires { Ready self }
        ensures { Acted self result memory.old memory.new (act Call n) }
    {
        keep(memory, self.sp, low_word(self.pc + 2));
        keep(memory, self.sp + 1, low_word(self.fp));
        Registers {
            pc: n as usize,
            sp: self.sp + 2,
            ..self
        }
    }

    // 9: fp becomes sp less n and 2.
    pub fn set_frame(self, n: u32, _memory: &mut [u32]) -> Registers
        requires { Ready self }
        ensures { Acted self result _memory.old _memory.new (act SetFrame n) }
    {
        Registers {
            fp: self.sp.saturating_sub(2 + n as usize),
            ..self.next()
        }
    }

    // 10: return from n arguments: the top goes to fp, sp behind it; pc and fp from behind the arguments.
    pub fn return_from(self, n: u32, memory: &mut [u32]) -> Registers
        requires { Ready self }
        ensures { Acted self result memory.old memory.new (act Return n) }
    {
        let top = self.top(memory);
        let pc = word_at(memory, self.fp + n as usize);
        let fp = word_at(memory, self.fp + (n as usize + 1));
        keep(memory, self.fp, top);
        Registers {
            pc: pc as usize,
            fp: fp as usize,
            sp: self.fp + 1,
            ..self
        }
    }

    // 11: put out the top; nothing where `out` is full.
    pub fn put_out(self, memory: &[u32], out: &mut [u32]) -> Option<Registers>
        requires ready { Ready self }
        requires put { self.put ≤ length out.old }
        ensures { PutOut self memory.now out.old out.new result }
    {
        // By an index, for the reason that stands at `keep`.
        let put = self.put;
        if put >= out.len() {
            return None;
        }
        out[put] = self.top(memory);
        Some(Registers {
            put: put + 1,
            ..self.next()
        })
    }

    // 12: push the tape's next word, 0 at its end.
    pub fn take_next(self, tape: &[u32], memory: &mut [u32]) -> Registers
        requires { Ready self }
        ensures { TookNext self tape.now memory.old memory.new result }
    {
        keep(memory, self.sp, word_at(tape, self.read));
        let read = if self.read < tape.len() {
            self.read + 1
        } else {
            self.read
        };
        Registers {
            sp: self.sp + 1,
            read,
            ..self.next()
        }
    }

    // 13: pop.
    pub fn pop(self, _n: u32, _memory: &mut [u32]) -> Registers
        requires { Ready self }
        ensures { Acted self result _memory.old _memory.new (act Pop _n) }
    {
        Registers {
            sp: self.sp.saturating_sub(1),
            ..self.next()
        }
    }

    // 14: free less n, or halt with 3.
    pub fn reserve(self, n: u32, _memory: &mut [u32]) -> Registers
        requires { Ready self }
        ensures { Acted self result _memory.old _memory.new (act Reserve n) }
    {
        if self.free < n {
            return self.stop(Status::NoRoom);
        }
        Registers {
            free: self.free - n,
            ..self.next()
        }
    }

    // 15: free and n, modulo 2^32.
    pub fn release(self, n: u32) -> Registers
        requires { Ready self }
        ensures { ActedAlone self result (act Release n) }
    {
        Registers {
            free: self.free.wrapping_add(n),
            ..self.next()
        }
    }

    // 16: left less 1, or halt with 2.
    pub fn count(self) -> Registers
        requires { Ready self }
        ensures { ActedAlone self result (act Count 0) }
    {
        if self.left == 0 {
            return self.stop(Status::NoCalls);
        }
        Registers {
            left: self.left - 1,
            ..self.next()
        }
    }
}
