//! The coders of tuples: nested pairs of the coders of their fields.
mod of_1;
mod of_12_and_13;
mod of_14_to_16;
mod of_3_to_8;
mod of_9_to_11;
