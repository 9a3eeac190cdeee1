//! The registers by what the code of this compiler keeps in them.

/// x0, which reads 0.
pub const ZERO: u8 = 0;
/// x1: the return address.
pub const RA: u8 = 1;
/// x2: the stack pointer.
pub const SP: u8 = 2;
/// x3: what is left of the stack account, in bytes.
pub const ACCOUNT: u8 = 3;
/// x4: the ticks left.
pub const TICKS: u8 = 4;
/// x5: the value of an expression, the first argument of a service, and its reply.
pub const VALUE: u8 = 5;
/// x6: the left operand, and the second argument of a service.
pub const LEFT: u8 = 6;
/// x7: a help.
pub const HELP: u8 = 7;
/// x8: the frame pointer, the address just above the frame.
pub const FP: u8 = 8;
/// x9: a further help.
pub const SPARE: u8 = 9;
/// x10: the first argument of a function, and its result.
pub const RESULT: u8 = 10;
/// x31: the number of the service that an `ecall` asks for.
pub const SERVICE: u8 = 31;
