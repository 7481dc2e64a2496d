//! The coders of integers and of types that allow only some integers, and the encoder of `U8Char`. Each integer type
//! also has an encoder and a decoder without type parameters: code that names them is checked faster.
#![tactic(auto)]

pub mod checked;
pub mod int;
pub mod signed_coders;
pub mod u8_char;
pub mod unsigned_coders;
