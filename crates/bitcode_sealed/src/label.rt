//! The label of sealed bytes, and what a program expects.

/// The label under which a program seals a value: its own number for the type, and the version of that type.
///
/// ```text
/// const RECORDS: Label = Label { kind: 0x5245_4353, version: 2 };
/// ```
#[derive(Clone, Copy, Debug, PartialEq, Eq)]
pub struct Label {
    pub kind: u32,
    pub version: u16,
}

/// What a program expects of sealed bytes: their label, and the maximal size of the value in bytes.
///
/// The limit is for untrusted input: no reader waits for more bytes than it would accept.
///
/// ```text
/// const EXPECTED: Expected = Expected { label: RECORDS, most_bytes: 1 << 20 };
/// ```
#[derive(Clone, Copy, Debug, PartialEq, Eq)]
pub struct Expected {
    pub label: Label,
    pub most_bytes: u64,
}
