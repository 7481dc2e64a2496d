//! The header of sealed bytes.
ghost use Rattle.std.specs.Prelude.{◌≡◌, ◌≤◌, ◌↔◌, IsTrue, [], ◌∷◌, length, slice_index, IfOk, IfErr};
ghost use Rattle.bitcode_memory.specs.LittleEndian.{little_endian};
ghost use Rattle.bitcode_sealed.specs.Layout.{head_bytes, BeginsWithHead, BeginsAsSealed};
ghost use Rattle.bitcode_sealed.specs.Faults.{IsHeadFault};

use crate::crc::crc_32;
use crate::error::OpenError;
use crate::label::Label;
use bitcode_memory::ints::Int;

/// The size of the header in bytes.
pub const HEAD_BYTES: usize = 20;

// What sealed bytes begin with. No text begins so: neither byte is ASCII, the first only goes on with a character of
// UTF-8, and the second stands nowhere in UTF-8.
const MAGIC: [u8; 2] = [0xBC, 0xF5];

// What a head says: the label of a value, and how many bytes the value has.
#[derive(Clone, Copy)]
pub struct Head {
    pub label: Label,
    pub size: u64,
}

impl Head {
    // Its bytes, with their checksum.
    pub fn bytes(self) -> [u8; 20]
        ensures { result ≡ head_bytes self }
    {
        let [v0, v1] = self.label.version.to_unaligned();
        let [k0, k1, k2, k3] = self.label.kind.to_unaligned();
        let [s0, s1, s2, s3, s4, s5, s6, s7] = self.size.to_unaligned();
        let [m0, m1] = MAGIC;
        let fields = [
            m0, m1, v0, v1, k0, k1, k2, k3, s0, s1, s2, s3, s4, s5, s6, s7,
        ];
        let [c0, c1, c2, c3] = crc_32(&fields).to_unaligned();
        [
            m0, m1, v0, v1, k0, k1, k2, k3, s0, s1, s2, s3, s4, s5, s6, s7, c0, c1, c2, c3,
        ]
    }

    // What the bytes say where a head stands, whatever their checksum.
    fn said_by(input: &[u8]) -> Head
        requires { 20 ≤ length input.now }
        ensures version { result.label.version ≡ little_endian
            (slice_index input.now 2 ∷ slice_index input.now 3 ∷ []) }
        ensures kind { result.label.kind ≡ little_endian
            (slice_index input.now 4 ∷ slice_index input.now 5 ∷ slice_index input.now 6
            ∷ slice_index input.now 7 ∷ []) }
        ensures size { result.size ≡ little_endian
            (slice_index input.now 8 ∷ slice_index input.now 9 ∷ slice_index input.now 10
            ∷ slice_index input.now 11
            ∷ slice_index input.now 12 ∷ slice_index input.now 13 ∷ slice_index input.now 14
            ∷ slice_index input.now 15 ∷ []) }
    {
        Head {
            label: Label {
                version: u16::from_unaligned([input[2], input[3]]),
                kind: u32::from_unaligned([input[4], input[5], input[6], input[7]]),
            },
            size: u64::from_unaligned([
                input[8], input[9], input[10], input[11], input[12], input[13], input[14],
                input[15],
            ]),
        }
    }
}

// Whether the input begins as sealed bytes do, as far as it goes.
pub fn begins_as_sealed(input: &[u8]) -> bool
    ensures { IsTrue result ↔ BeginsAsSealed input.now }
{
    let count = input.len().min(MAGIC.len());
    &input[..count] == &MAGIC[..count]
}

/// Reads the header at the front of the input.
///
/// Errors: `NotSealed`, `CutOff` within the header, and `HeadDamaged`.
pub fn read_head(input: &[u8]) -> Result<Head, OpenError>
    ensures found { IfOk result (λ head. BeginsWithHead head input.now) }
    ensures refused { IfErr result (λ e. IsHeadFault input.now e) }
{
    if !begins_as_sealed(input) {
        return Err(OpenError::NotSealed);
    }
    if input.len() < HEAD_BYTES {
        return Err(OpenError::CutOff {
            present: input.len() as u64,
            wanted: HEAD_BYTES as u64,
        });
    }
    let head = Head::said_by(input);
    if &input[..HEAD_BYTES] != head.bytes().as_slice() {
        return Err(OpenError::HeadDamaged);
    }
    Ok(head)
}
