//! The limits of driver programs: of their instructions, their bytes and their text.

/// The maximum number of instructions of a program.
pub const MAX_INSTRUCTIONS: usize = 128;

/// The number of variables of a program: eight registers, and then seven inputs.
pub const VARIABLES: usize = 15;

/// The number of random words of a car in a step.
pub const WORDS: usize = 16;

/// The probability 1, times 2^31.
pub const CERTAIN: u32 = 2147483648;

/// The bytes that every encoding of a program begins with.
pub const MAGIC: [u8; 4] = *b"TRLB";

/// The version of the encoding of programs that do not read the speed of the next car ahead.
pub const PLAIN_VERSION: u8 = 1;

/// The version of the encoding of programs that read the speed of the next car ahead.
pub const HEADSPEED_VERSION: u8 = 2;

/// The number of bytes of a header.
pub const HEADER_BYTES: usize = 8;

/// The number of bytes of an encoded instruction.
pub const INSTR_BYTES: usize = 8;

/// The largest number in the text of a program.
pub const MAX_NUMBER: u32 = 4294967295;

/// The maximum number of digits of a number in the text of a program.
pub const MAX_DIGITS: usize = 10;

/// The maximum number of bytes of a label.
pub const LONGEST_LABEL: usize = 32;
