//! Groups of two to four consecutive variants: their encoders and their decoders.
pub mod of_2;
pub mod of_3;
pub mod of_4;
