//! The steps from a value to its parts.

/// A step from a value to one of its parts.
#[derive(Clone, Copy, PartialEq, Eq)]
pub enum Step {
    Element,
    Key,
    Value,
    Variant(u8),
    Field(usize),
}

impl Step {
    /// Where the place that is this step below another stands among its children, if all earlier ones were met.
    #[inline(always)]
    pub fn position(self) -> usize {
        match self {
            Step::Element => 0,
            Step::Key => 0,
            Step::Value => 1,
            Step::Variant(i) => i as usize,
            Step::Field(i) => i,
        }
    }
}
