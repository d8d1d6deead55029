//! How a call ended, as C is told.
ghost use Rattle.std.specs.Prelude.{◌≡◌, ◌<◌, length};
ghost use Rattle.flutejoin_c.specs.Codes.{code_of, number_of, refusal_number};
ghost use Rattle.flutejoin_c.specs.Gives.{filled};

use arrayvec::ArrayString;
use flute_wire::Refusal;
use flutejoin::CommandFault;
use std::fmt::Write;

/// How many bytes the line of a fault has room for, with the zero after it.
const ROOM: usize = 96;

/// How a call ended, and how much it had to give.
#[repr(C)]
#[derive(Drop)]
pub struct Answer {
    /// How many bytes or entries there are to give, whether or not there was room for them; 0 after
    /// a fault.
    pub needed: u64,
    /// 0, or the number of the fault, as `flutejoin.h` has it.
    pub code: u32,
    /// Of an input at fault its number, from 1; of a refusal its number; of a bad line its number,
    /// from 1; of a symbol that is wanted its source block number times 65,536 and its encoding
    /// symbol ID; else 0.
    pub number: u64,
    /// Of a fault its line, as the program prints it, and a zero byte.
    pub text: [u8; 96],
}

impl Answer {
    /// Gives as many of these as there is room for. Returns 0.
    pub fn give<T: Copy>(&mut self, items: &[T], out: &mut [T]) -> u32
        ensures value { result ≡ 0 }
        ensures given { out.new ≡ filled items.now out.old }
        ensures needed { self.new.needed ≡ length items.now }
        ensures code { self.new.code ≡ 0 }
    {
        let count = items.len().min(out.len());
        out[..count].copy_from_slice(&items[..count]);
        self.needed = items.len() as u64;
        self.number = 0;
        self.text[0] = 0;
        self.code = 0;
        0
    }

    /// A call failed. Returns the number of the fault.
    pub fn refuse(&mut self, fault: CommandFault) -> u32
        ensures value { result ≡ code_of fault }
        ensures positive { 0 < result }
        ensures code { self.new.code ≡ code_of fault }
        ensures number { self.new.number ≡ number_of fault }
        ensures needed { self.new.needed ≡ 0 }
    {
        self.say(&fault);
        self.needed = 0;
        self.number = number(&fault);
        self.code = code(&fault);
        self.code
    }

    // Puts down the line of a fault. A device in memory fails only for want of memory.
    fn say(&mut self, fault: &CommandFault) {
        let mut line = ArrayString::<ROOM>::new();
        // No line of these faults is too long.
        let _done = match fault {
            CommandFault::CannotWrite | CommandFault::CannotPutAside => {
                write!(line, "{}", CommandFault::OutOfMemory)
            }
            _ => write!(line, "{fault}"),
        };
        let bytes = line.as_bytes();
        let count = bytes.len().min(ROOM - 1);
        self.text[..count].copy_from_slice(&bytes[..count]);
        self.text[count] = 0;
    }
}

/// The number of a fault.
fn code(fault: &CommandFault) -> u32
    ensures value { result ≡ code_of fault.now }
    ensures positive { 0 < result }
{
    match fault {
        CommandFault::BadKey => 2,
        CommandFault::TooManyInputs => 3,
        CommandFault::Refused(_) => 4,
        CommandFault::Input(..) => 5,
        CommandFault::UnknownKind(_) => 6,
        CommandFault::BadLine(_) => 7,
        CommandFault::Full => 8,
        CommandFault::NoObject => 9,
        CommandFault::NoInformation => 10,
        CommandFault::ConflictingInformation => 11,
        CommandFault::NotWhole { .. } => 12,
        CommandFault::OutOfMemory => 13,
        CommandFault::CannotWrite | CommandFault::CannotPutAside => 13,
        _ => 14,
    }
}

/// The number in a fault.
fn number(fault: &CommandFault) -> u64
    ensures { result ≡ number_of fault.now }
{
    match fault {
        CommandFault::Refused(refusal) => number_of_refusal(*refusal),
        CommandFault::Input(number, _) => *number as u64,
        CommandFault::UnknownKind(number) => *number as u64,
        CommandFault::BadLine(number) => *number,
        CommandFault::NotWhole { sbn, esi } => u64::from(*sbn) * 65_536 + u64::from(*esi),
        _ => 0,
    }
}

/// The number of a refusal, as it is shown.
fn number_of_refusal(refusal: Refusal) -> u64
    ensures { result ≡ refusal_number refusal }
{
    match refusal {
        Refusal::TooLong => 1,
        Refusal::TooShort => 2,
        Refusal::LctVersion => 3,
        Refusal::HeaderLength => 4,
        Refusal::HeaderCut => 5,
        Refusal::NoTsi => 6,
        Refusal::NoToi => 7,
        Refusal::Codepoint => 8,
        Refusal::ExtensionLength => 9,
        Refusal::Repeated => 10,
        Refusal::FtiLength => 11,
        Refusal::Information(_) => 12,
        Refusal::NoInstance => 13,
        Refusal::FluteVersion => 14,
        Refusal::ContentEncoded => 15,
        Refusal::PayloadIdCut => 16,
    }
}
