//! Texts: their bytes.
ghost use Rattle.std.specs.Prelude.{refl};
ghost use Rattle.std.specs.Arc.{arc_str_bytes};
ghost use Rattle.std.specs.Box.{boxed_str_bytes};
ghost use Rattle.std.specs.Cow.{cow_str_bytes};
ghost use Rattle.std.specs.Rc.{rc_str_bytes};
ghost use Rattle.std.specs.String.{string_bytes};
ghost use Rattle.bitcode_shapes.specs.LawfulTexts.{arc_str_built, boxed_str_built, cow_str_built};
ghost use Rattle.bitcode_shapes.specs.LawfulTexts.{rc_str_built, str_built, string_built};
ghost use Rattle.bitcode_shapes.specs.LeafData.{text_data};

use crate::keys::Key;
use crate::shaped::Shaped;
use std::borrow::CowStr;
use std::boxed::BoxedStr;
use std::rc::RcStr;
use std::sync::ArcStr;

impl<'a> Shaped for &'a str {
    ghost data = { text_data (λ s. s.now) (λ g. str_built) };

    fn told(&self) {
        let _bytes = self.as_bytes();
    }
}

impl<'a> Key for &'a str {
    ghost equal = { refl };

    ghost ordered = { refl };
}

impl Shaped for String {
    ghost data = { text_data string_bytes string_built };

    fn told(&self) {
        self.as_str().told();
    }
}

impl Key for String {
    ghost equal = { refl };

    ghost ordered = { refl };
}

impl Shaped for BoxedStr {
    ghost data = { text_data boxed_str_bytes boxed_str_built };

    fn told(&self) {
        self.as_str().told();
    }
}

impl Key for BoxedStr {
    ghost equal = { refl };

    ghost ordered = { refl };
}

impl Shaped for RcStr {
    ghost data = { text_data rc_str_bytes rc_str_built };

    fn told(&self) {
        self.as_str().told();
    }
}

impl Key for RcStr {
    ghost equal = { refl };

    ghost ordered = { refl };
}

impl Shaped for ArcStr {
    ghost data = { text_data arc_str_bytes arc_str_built };

    fn told(&self) {
        self.as_str().told();
    }
}

impl Key for ArcStr {
    ghost equal = { refl };

    ghost ordered = { refl };
}

impl<'a> Shaped for CowStr<'a> {
    ghost data = { text_data cow_str_bytes cow_str_built };

    fn told(&self) {
        self.as_str().told();
    }
}

impl<'a> Key for CowStr<'a> {
    ghost equal = { refl };

    ghost ordered = { refl };
}
