//! The fields of tuples, and the nested pairs that tuples of three and more fields are encoded as.
mod of_13_to_16;
mod of_3_to_8;
mod of_9_to_12;
