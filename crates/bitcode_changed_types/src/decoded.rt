//! What is known of decoded values: the checks hold, and skipped fields have their defaults.
ghost use Rattle.std.specs.Prelude.{◌≡◌, ◌≤◌, ◌<◌, [], false, IfOk};
ghost use Rattle.bitcode.specs.ByHand.{IsDecodingOf};

use crate::grade::Grade;
use crate::known::Known;
use crate::percent::Percent;
use crate::span::Span;
use bitcode::{Error, Shaped, decode, decode_strict};
use std::alloc::Global;

/// Decodes a percent. It has at most 100 hundredths, since its check refuses others.
///
/// Errors: those of `decode`. More than 100 hundredths are an `invalid bit pattern`.
pub fn decode_percent(alloc: Global, bytes: &[u8]) -> Result<Percent, Error>
    ensures { IfOk result (λ p. (p.hundredths ≤ 100)
        × IsDecodingOf ⟦<Percent as Shaped>⟧.data.makes ⟦<Percent as Shaped>⟧.data.shape bytes.now
        p) }
{
    decode(alloc, bytes)
}

/// Decodes a span. Its end is not before its start, since its check refuses others.
///
/// Errors: those of `decode`. An end before the start is an `invalid bit pattern`.
pub fn decode_span(alloc: Global, bytes: &[u8]) -> Result<Span, Error>
    ensures { IfOk result (λ s. s.start ≤ s.end) }
{
    decode(alloc, bytes)
}

/// Decodes a grade from the very bytes that `encode` writes.
///
/// Errors: those of `decode_strict`. More points than can be had are an `invalid bit pattern`, and so is a most of 0.
pub fn decode_grade(alloc: Global, bytes: &[u8]) -> Result<Grade, Error>
    ensures { IfOk result (λ g. (0 < g.most) × (g.points ≤ g.most)) }
{
    decode_strict(alloc, bytes)
}

/// Decodes a monster. Its skipped fields are `false` and empty.
///
/// Errors: those of `decode`.
pub fn decode_known(alloc: Global, bytes: &[u8]) -> Result<Known, Error>
    ensures { IfOk result (λ k. (k.is_seen ≡ false) × (k.path.items ≡ [])) }
{
    decode(alloc, bytes)
}
