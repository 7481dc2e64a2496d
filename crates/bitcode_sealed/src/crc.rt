//! The checksum of sealed bytes: CRC-32.
ghost use Rattle.std.specs.Prelude.{◌≡◌, ◌<◌, ◌^◌};
ghost use Rattle.bitcode_sealed.specs.Crc.{byte_step, register_after, crc_32};

use crate::crc_tables::{
    shifted_8, shifted_16, shifted_24, shifted_32, shifted_40, shifted_48, shifted_56, shifted_64,
};
use bitcode_memory::ints::Int;

// The register with a byte taken in.
fn byte_step(register: u32, byte: u8) -> u32
    ensures { result ≡ byte_step register byte }
{
    let low = (register ^ u32::from(byte)) & 0xFF;
    shifted_8(low as u8) ^ (register >> 8)
}

// The register with eight bytes taken in: it is put over the first four of them, and each byte is then shifted out by a
// table.
fn eight_steps(register: u32, bytes: &[u8; 8]) -> u32
    ensures { result ≡ register_after register bytes.now }
{
    let [b0, b1, b2, b3, b4, b5, b6, b7] = *bytes;
    let [w0, w1, w2, w3] = (register ^ u32::from_unaligned([b0, b1, b2, b3])).to_unaligned();
    shifted_64(w0)
        ^ shifted_56(w1)
        ^ shifted_48(w2)
        ^ shifted_40(w3)
        ^ shifted_32(b4)
        ^ shifted_24(b5)
        ^ shifted_16(b6)
        ^ shifted_8(b7)
}

/// The CRC-32 of the bytes, as zlib, gzip and PNG compute it.
///
/// ```text
/// let sum = crc_32(b"123456789");
/// prove!(sum == 0xCBF4_3926);
/// ```
pub fn crc_32(bytes: &[u8]) -> u32
    ensures { result ≡ crc_32 bytes.now }
{
    let (chunks, rest) = bytes.as_chunks::<8>();
    let mut register = u32::MAX;
    for chunk in chunks {
        register = eight_steps(register, chunk);
    }
    for byte in rest {
        register = byte_step(register, *byte);
    }
    register ^ u32::MAX
}
