//! Programs as bytes: the header, and a row of eight bytes for each instruction.

ghost use Rattle.std.specs.Prelude.{◌≡◌, IfOk, ◌≤◌, length, take, IfErr, ◌≢◌, ◌*◌, ◌<◌, ◌⊎◌, ℕ, drop, All, MatchResult};
ghost use Rattle.trlab_code.specs.Encoding.{encoding, kind_byte, header, instr_bytes, EncodesInstr};
ghost use Rattle.trlab_code.specs.Faults.{HasValidHeader, HasRoom, IsFirstCodeFault, stated_count, stated_version, IsValidBefore, row_at};
ghost use Rattle.std.specs.List.{flat_map};
ghost use Rattle.trlab_code.specs.Program.{Program, IsInRange, IsValidProgram};
ghost use Rattle.trlab_code.specs.declared.fault.CodeFault.{CodeFault};

use crate::fault::CodeFault;
use crate::instruction::Instr;
use crate::program::{Code, Kind};
use crate::row::{self, InstructionRow};
use std::alloc::{AllocError, Global};
use trlab_bounds::programs::{
    HEADER_BYTES, HEADSPEED_VERSION, INSTR_BYTES, MAGIC, MAX_INSTRUCTIONS, PLAIN_VERSION,
};

/// The fields of a header after `TRLB`.
#[derive(Clone, Copy)]
struct Header {
    version: u8,
    kind: Kind,
    count: u32,
}

/// The byte of a header that states the kind.
fn kind_byte(kind: Kind) -> u8
    ensures { result ≡ kind_byte kind }
{
    match kind {
        Kind::Motion => 0,
        Kind::Change => 1,
    }
}

impl Header {
    /// Reads the header, and checks that the bytes have room for all instructions that it states.
    fn read(bytes: &[u8]) -> Result<Header, CodeFault>
        ensures good { IfOk result (λ h. HasValidHeader bytes.now) }
        ensures room { IfOk result (λ h. HasRoom bytes.now) }
        ensures version { IfOk result (λ h. stated_version bytes.now ≡ h.version) }
        ensures count { IfOk result (λ h. stated_count bytes.now ≡ h.count) }
        ensures spelt { IfOk result (λ h. take HEADER_BYTES bytes.now ≡ header h.version h.kind h.count) }
        ensures fault { IfErr result (IsFirstCodeFault bytes.now) }
    {
        if bytes.len() < HEADER_BYTES {
            return Err(CodeFault::Short);
        }
        if !bytes.starts_with(&MAGIC) {
            return Err(CodeFault::Magic);
        }
        let version = bytes[4];
        if version != PLAIN_VERSION && version != HEADSPEED_VERSION {
            return Err(CodeFault::Version);
        }
        let kind = match bytes[5] {
            0 => Kind::Motion,
            1 => Kind::Change,
            _ => return Err(CodeFault::Kind),
        };
        let count = u32::from(u16::from_le_bytes([bytes[6], bytes[7]]));
        if count == 0 || count as usize > MAX_INSTRUCTIONS {
            return Err(CodeFault::Count);
        }
        if bytes.len() - HEADER_BYTES < INSTR_BYTES * (count as usize) {
            return Err(CodeFault::Short);
        }
        Ok(Header {
            version,
            kind,
            count,
        })
    }

    /// The bytes of the header, with the lower byte of the number of instructions first.
    fn bytes(self) -> [u8; HEADER_BYTES]
        requires { self.count ≤ MAX_INSTRUCTIONS }
        ensures { result ≡ header self.version self.kind self.count }
    {
        let [t, r, l, b] = MAGIC;
        let [low, high] = (self.count as u16).to_le_bytes();
        [t, r, l, b, self.version, kind_byte(self.kind), low, high]
    }
}

/// Encodes a program: 8 bytes for the header and 8 for each instruction.
///
/// # Errors
///
/// If an allocation fails.
pub fn encode(alloc: Global, code: &Code) -> Result<Vec<u8>, AllocError>
    ensures { IfOk result (λ bytes. bytes.items ≡ encoding code.now) }
{
    let instrs = code.instrs();
    let header = Header {
        version: code.version(),
        kind: code.kind(),
        count: instrs.len() as u32,
    };
    let mut bytes = Vec::with_capacity(alloc, HEADER_BYTES + INSTR_BYTES * instrs.len())?;
    bytes.extend_from_slice(&header.bytes())?;
    for instr in instrs {
        bytes.extend_from_slice(&row::row_of(*instr).bytes())?;
    }
    Ok(bytes)
}

/// Reads the instruction at `pc` from bytes of this version; all bytes before it are valid.
fn instr_at(bytes: &[u8], version: u8, pc: u32) -> Result<Instr, CodeFault>
    requires version { version ≡ stated_version bytes.now }
    requires inside { pc < stated_count bytes.now }
    requires before { IsValidBefore bytes.now pc }
    ensures { MatchResult result
        (λ i. EncodesInstr (stated_version bytes.now) i (row_at bytes.now pc)) (IsFirstCodeFault bytes.now) }
{
    let row = InstructionRow::read(bytes, HEADER_BYTES + INSTR_BYTES * pc as usize);
    match row::instruction_of(row, version) {
        Some(instr) => Ok(instr),
        None if row::is_opcode(row.opcode) => Err(CodeFault::Field(pc)),
        None => Err(CodeFault::Opcode(pc)),
    }
}

/// Reads the instructions after a valid header.
fn read_instrs(alloc: Global, bytes: &[u8], header: Header) -> Result<Vec<Instr>, CodeFault>
    requires header { HasValidHeader bytes.now }
    requires room { HasRoom bytes.now }
    requires version { header.version ≡ stated_version bytes.now }
    requires count { header.count ≡ stated_count bytes.now }
    ensures length { IfOk result (λ instrs. length instrs.items ≡ stated_count bytes.now) }
    ensures in_range { IfOk result (λ instrs. All IsInRange instrs.items) }
    ensures spelt { IfOk result (λ instrs.
        flat_map instr_bytes instrs.items
        ≡ take (INSTR_BYTES * stated_count bytes.now) (drop HEADER_BYTES bytes.now)) }
    ensures rows { IfOk result (λ _. IsValidBefore bytes.now (stated_count bytes.now)) }
    ensures fault { IfErr result (IsFirstCodeFault bytes.now) }
{
    let mut instrs = Vec::with_capacity(alloc, header.count as usize)?;
    for pc in 0..header.count {
        let instr = instr_at(bytes, header.version, pc)?;
        if instrs.push(instr).is_err() {
            return Err(CodeFault::Memory);
        }
    }
    Ok(instrs)
}

/// Decodes a program: a header of 8 bytes, and 8 bytes for each instruction.
///
/// The header is `TRLB`, the version, the kind (0 motion, 1 change), and the number of instructions in two bytes, the
/// lower byte first. The version is 2 if an instruction reads `headspeed`, else 1. An instruction is its opcode, three
/// one-byte fields, and a number in four bytes, the lowest byte first; fields that an instruction does not use are 0.
/// Other bytes are rejected for their first fault, in the order of `CodeFault`; if the bytes end early, the header is
/// checked first.
///
/// # Errors
///
/// The first fault of the bytes, or `Memory` if allocation fails.
pub fn decode(alloc: Global, bytes: &[u8]) -> Result<Code, CodeFault>
    ensures exact { MatchResult result (λ code. bytes.now ≡ encoding code) (IsFirstCodeFault bytes.now) }
    ensures program { IfOk result IsValidProgram }

    // Each program is found, unless allocation fails.
    ensures found { (program : Program) → IsValidProgram program → bytes.now ≡ encoding program
        → (result ≡ Ok program) ⊎ (result ≡ Err CodeFault.Memory) }

    // Each fault is reported, unless allocation fails.
    ensures reported { (fault : CodeFault) → IsFirstCodeFault bytes.now fault → fault ≢ CodeFault.Memory
        → (result ≡ Err fault) ⊎ (result ≡ Err CodeFault.Memory) }
{
    let header = Header::read(bytes)?;
    let instrs = read_instrs(alloc, bytes, header)?;
    let code = Code::from_valid(header.kind, instrs);
    if code.version() != header.version {
        return Err(CodeFault::NeedlessVersion);
    }
    if HEADER_BYTES + INSTR_BYTES * (header.count as usize) < bytes.len() {
        return Err(CodeFault::Trailing);
    }
    Ok(code)
}
