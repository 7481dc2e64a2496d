//! Generic code over values of any type.
ghost use Rattle.std.specs.Prelude.{◌≡◌, ◌≢◌, IfOk, IfErr};
ghost use Rattle.bitcode.specs.ByHand.{Datum, IsDecodingOf, SpellsDatum};

use bitcode::{Decode, Error, Reason, decode};
use std::alloc::Global;
use std::marker::PhantomData;

/// Reads one value of any type, and refuses bytes that spell none.
pub fn load<'a, T: Decode<'a>>(alloc: Global, bytes: &'a [u8]) -> Result<T, Error>
    ensures found { IfOk result (λ t. IsDecodingOf T.data.makes T.data.shape bytes.now t) }
    ensures refused { IfErr result
        (λ e. e.reason ≢ Reason.OutOfMemory → (d : Datum) → SpellsDatum T.data.shape bytes.now d
        → ⊥) }
{
    decode(alloc, bytes)
}

/// Bytes that a value of `T` is read from each time that it is asked for.
#[derive(Drop)]
pub struct Cache<T> {
    bytes: Vec<u8>,
    of: PhantomData<T>,
}

impl<T> Cache<T> {
    /// Keeps the bytes.
    pub fn new(bytes: Vec<u8>) -> Self
        ensures { result.bytes ≡ bytes }
    {
        Cache {
            bytes,
            of: PhantomData,
        }
    }

    /// Reads the value, which may be one that borrows its texts from the cache. Bytes that spell none are refused.
    pub fn get<'a>(&'a self, alloc: Global) -> Result<T, Error>
    where
        T: Decode<'a>,
        ensures found { IfOk result
            (λ t. IsDecodingOf T.data.makes T.data.shape self.now.bytes.items t) }
        ensures refused { IfErr result
            (λ e. e.reason ≢ Reason.OutOfMemory → (d : Datum)
            → SpellsDatum T.data.shape self.now.bytes.items d → ⊥) }
    {
        decode(alloc, self.bytes.as_slice())
    }
}
