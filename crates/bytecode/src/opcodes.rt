// The opcodes under the Rust's names, and the operand size of every opcode byte.

pub const PUSH_U32: u8 = 0x01;

pub const PUSH_STATE: u8 = 0x03;

pub const PUSH_CALLDATA: u8 = 0x04;

pub const PUSH_TASK_FIELD: u8 = 0x05;

pub const PUSH_MAX_STATES: u8 = 0x06;

pub const T_CREATE: u8 = 0x07;

pub const T_GET_FIELD: u8 = 0x08;

pub const T_SET_FIELD: u8 = 0x09;

pub const T_DELETE: u8 = 0x0A;

pub const S_SAVE: u8 = 0x0B;

pub const S_LOAD: u8 = 0x0C;

pub const S_LEN: u8 = 0x0D;

pub const DO: u8 = 0x0E;

pub const LOOP: u8 = 0x0F;

pub const LOOP_INDEX: u8 = 0x10;

pub const CALL: u8 = 0x11;

pub const END_CALL: u8 = 0x12;

pub const DROP: u8 = 0x13;

pub const DUP: u8 = 0x14;

pub const SWAP: u8 = 0x15;

pub const EQ: u8 = 0x16;

pub const NEQ: u8 = 0x17;

pub const LT: u8 = 0x18;

pub const GT: u8 = 0x19;

pub const JUMP_IF_FALSE: u8 = 0x1A;

pub const M_STI: u8 = 0x1B;

pub const M_ST: u8 = 0x1C;

pub const M_MUTA: u8 = 0x1D;

pub const MULI: u8 = 0x1E;

pub const MUL: u8 = 0x1F;

// All 256 opcode bytes: how many operand bytes follow each. What follows those is said beside them.
pub const OPERAND_SIZES: [u8; 256] = [
    0, 4, // 01 PUSH_U32 <u32>
    0, 1, // 03 PUSH_STATE <u8>
    2, // 04 PUSH_CALLDATA <u16 size> and as many data bytes
    1, // 05 PUSH_TASK_FIELD <u8>
    1, // 06 PUSH_MAX_STATES <u8>
    0, // 07 T_CREATE
    0, // 08 T_GET_FIELD
    0, // 09 T_SET_FIELD
    0, // 0A T_DELETE
    0, // 0B S_SAVE
    0, // 0C S_LOAD
    0, // 0D S_LEN
    0, // 0E DO
    0, // 0F LOOP
    0, // 10 LOOP_INDEX
    0, // 11 CALL
    0, // 12 END_CALL
    0, // 13 DROP
    0, // 14 DUP
    0, // 15 SWAP
    0, // 16 EQ
    0, // 17 NEQ
    0, // 18 LT
    0, // 19 GT
    4, // 1A JUMP_IF_FALSE <u32 place>
    4, // 1B M_STI <u16 size> <u8 tag> <u8 signal>, and size payload bytes if the signal is 1
    1, // 1C M_ST <u8 tag>
    0, // 1D M_MUTA
    4, // 1E MULI <u32>
    0, // 1F MUL
    0, 0, 0, 0, 0, 0, 0, 0, 0, 0, 0, 0, 0, 0, 0, 0, 0, 0, 0, 0, 0, 0, 0, 0, 0, 0, 0, 0, 0, 0, 0, 0,
    0, 0, 0, 0, 0, 0, 0, 0, 0, 0, 0, 0, 0, 0, 0, 0, 0, 0, 0, 0, 0, 0, 0, 0, 0, 0, 0, 0, 0, 0, 0, 0,
    0, 0, 0, 0, 0, 0, 0, 0, 0, 0, 0, 0, 0, 0, 0, 0, 0, 0, 0, 0, 0, 0, 0, 0, 0, 0, 0, 0, 0, 0, 0, 0,
    0, 0, 0, 0, 0, 0, 0, 0, 0, 0, 0, 0, 0, 0, 0, 0, 0, 0, 0, 0, 0, 0, 0, 0, 0, 0, 0, 0, 0, 0, 0, 0,
    0, 0, 0, 0, 0, 0, 0, 0, 0, 0, 0, 0, 0, 0, 0, 0, 0, 0, 0, 0, 0, 0, 0, 0, 0, 0, 0, 0, 0, 0, 0, 0,
    0, 0, 0, 0, 0, 0, 0, 0, 0, 0, 0, 0, 0, 0, 0, 0, 0, 0, 0, 0, 0, 0, 0, 0, 0, 0, 0, 0, 0, 0, 0, 0,
    0, 0, 0, 0, 0, 0, 0, 0, 0, 0, 0, 0, 0, 0, 0, 0, 0, 0, 0, 0, 0, 0, 0, 0, 0, 0, 0, 0, 0, 0, 0, 0,
];
