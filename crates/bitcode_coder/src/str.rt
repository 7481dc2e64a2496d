//! Texts as the entries of a column.
ghost use Rattle.std.specs.Prelude.{◌≡◌, List, None, refl};
ghost use Rattle.bitcode_shapes.specs.Datum.{Datum, text};
ghost use Rattle.bitcode_coder.specs.Coder.{written_columns};
ghost use Rattle.bitcode_coder.specs.Columns.{texts, one};

pub use crate::str::decoder::StrDecoder;
pub use crate::str::encoder::StrEncoder;
pub use crate::str::fixed::ArrayStringDecoder;
use arrayvec::ArrayString;
use bitcode_shapes::shaped::Shaped;
use std::borrow::CowStr;
use std::boxed::BoxedStr;
use std::rc::RcStr;
use std::sync::ArcStr;

mod decoder;
mod encoder;
mod fixed;

/// A type whose values are written as texts.
pub trait AsText: Shaped {
    /// The text that is written for the value.
    fn as_text(&self) -> &str
        ensures { Self.data.lists self.now (text result.now) };

    ghost as_text_columns: { (ds : List Datum)
        → written_columns Self.data.shape ds ≡ one (texts None) ds };
}

impl<'a> AsText for &'a str {
    fn as_text(&self) -> &str {
        *self
    }

    ghost as_text_columns = { λ ds. refl };
}

impl AsText for String {
    fn as_text(&self) -> &str {
        self.as_str()
    }

    ghost as_text_columns = { λ ds. refl };
}

impl AsText for BoxedStr {
    fn as_text(&self) -> &str {
        self.as_str()
    }

    ghost as_text_columns = { λ ds. refl };
}

impl AsText for RcStr {
    fn as_text(&self) -> &str {
        self.as_str()
    }

    ghost as_text_columns = { λ ds. refl };
}

impl AsText for ArcStr {
    fn as_text(&self) -> &str {
        self.as_str()
    }

    ghost as_text_columns = { λ ds. refl };
}

impl<'a> AsText for CowStr<'a> {
    fn as_text(&self) -> &str {
        self.as_str()
    }

    ghost as_text_columns = { λ ds. refl };
}

impl<const N: usize> AsText for ArrayString<N> {
    fn as_text(&self) -> &str {
        self.as_str()
    }

    ghost as_text_columns = { λ ds. refl };
}
