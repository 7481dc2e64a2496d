//! Collecting the variants of several values.
ghost use Rattle.std.specs.Prelude.{◌≡◌, ℕ, ◌<◌, ◌≤◌, length, map, take, drop, All};

use bitcode_coder::coder::MAX_VECTORED_CHUNK;
use bitcode_coder::part::Part;

/// Determines the variant of a value of `T`, for encoders of choices that write several values at once.
///
/// ```
/// pub struct LightVariant {}
///
/// impl SaysVariant<Light> for LightVariant {
///     ghost count = { 3 };
///
///     ghost variant = { elim [ Light.Red ↦ 0 | Light.Amber ↦ 1 | Light.Green ↦ 2 ] };
///
///     fn variant(light: &Light) -> u8 {
///         match light {
///             Light::Red => 0,
///             Light::Amber => 1,
///             Light::Green => 2,
///         }
///     }
/// }
/// ```
pub trait SaysVariant<T> {
    // how many variants there are
    ghost count: { ℕ };

    // which variant a value is of
    ghost variant: { T → ℕ };

    /// The variant of the value.
    fn variant(t: &T) -> u8
        ensures is { result ≡ variant t.now }
        ensures known { result < count };
}

/// Writes the variants of a part of each item into the first places of `variants`. The other places do not change.
///
/// ```rust
/// use bitcode_coder::part::Itself;
///
/// let mut variants = [0; MAX_VECTORED_CHUNK];
/// gather_variants::<Light, Light, Itself, LightVariant>(&[Light::Red, Light::Green], &Itself, &mut variants);
/// assert_eq!(rt; variants[1], 2);
/// ```
pub fn gather_variants<S, T, W: Part<S, T>, V: SaysVariant<T>>(
    items: &[S],
    which: &W,
    variants: &mut [u8; MAX_VECTORED_CHUNK],
)
    requires { length items.now ≤ MAX_VECTORED_CHUNK }
    ensures gathered { take (length items.now) variants.new ≡ map V.variant
        (map (W.of which.now) items.now) }
    ensures known { All (λ variant. variant < V.count) (take (length items.now) variants.new) }
    ensures rest { drop (length items.now) variants.new ≡ drop (length items.now) variants.old }
{
    for index in 0..items.len() {
        variants[index] = V::variant(which.part(&items[index]));
    }
}
