//! Tuples of one to sixteen fields. A tuple of one field is treated as its field, and one of three or more as the pair
//! of its first half and its second.
mod of_1_to_8;
mod of_9_to_16;
