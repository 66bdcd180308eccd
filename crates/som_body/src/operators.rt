//! The numbers of operators: those that an image has for them.

// of one operand
pub const MINUS: u8 = 0;

pub const NOT: u8 = 1;

pub const LENGTH: u8 = 2;

pub const TEXT: u8 = 3;

// of two operands
pub const ADD: u8 = 0;

pub const SUBTRACT: u8 = 1;

pub const MULTIPLY: u8 = 2;

pub const DIVIDE: u8 = 3;

pub const REMAINDER: u8 = 4;

pub const EQUAL: u8 = 5;

pub const NOT_EQUAL: u8 = 6;

pub const LESS: u8 = 7;

pub const LESS_EQUAL: u8 = 8;

pub const GREATER: u8 = 9;

pub const GREATER_EQUAL: u8 = 10;

pub const AND: u8 = 11;

pub const OR: u8 = 12;

pub const JOIN: u8 = 13;
