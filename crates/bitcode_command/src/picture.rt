//! The columns of an input as a picture.
use crate::column::Column;
use crate::column_text::{kind_text, packing_text, path_text};
use crate::table::share_of;
use std::alloc::{AllocError, Global};

// The height of a row, and how long the bar of all bytes is.
const ROW: usize = 24;

const WIDEST: usize = 400;

const STYLE: &str =
    "<style>text{font:13px sans-serif;fill:#1f2328}.quiet{fill:#59636e}rect{fill:#0969da}\
@media(prefers-color-scheme:dark){text{fill:#f0f6fc}.quiet{fill:#9198a1}rect{fill:#4493f8}}</style>";

/// An SVG picture of an input's columns: a bar for each, as long as its share of the bytes. Its colours suit a light
/// and a dark page.
pub fn picture(alloc: Global, parts: &[Column]) -> Result<String, AllocError> {
    let mut all = 0usize;
    for part in parts {
        all = all.saturating_add(part.extent.size);
    }
    let height = parts.len().saturating_mul(ROW).saturating_add(ROW);
    let mut text = format!(in alloc;
        "<svg xmlns=\"http://www.w3.org/2000/svg\" viewBox=\"0 0 900 {height}\" role=\"img\">\n"
    )?;
    text.push_str(STYLE)?;
    text.push_str("\n")?;
    let mut top = ROW;
    for part in parts {
        push_row(alloc, &mut text, part, top, all)?;
        top = top.saturating_add(ROW);
    }
    text.push_str("</svg>\n")?;
    Ok(text)
}

// The row of a column: its path, its bar, and what is said of it.
fn push_row(
    alloc: Global,
    text: &mut String,
    part: &Column,
    base: usize,
    all: usize,
) -> Result<(), AllocError> {
    let above = base.saturating_sub(12);
    let width = share_of(part.extent.size, all, WIDEST).max(1);
    let beside = width.saturating_add(250);
    let bytes = part.extent.size;
    let kind = kind_text(alloc, part.kind)?;
    let packing = packing_text(alloc, part)?;
    text.push_str(&format!(in alloc; "<text x=\"230\" y=\"{base}\" text-anchor=\"end\">")?)?;
    push_escaped(text, path_text(part))?;
    text.push_str("</text>")?;
    text.push_str(&format!(in alloc;
        "<rect x=\"240\" y=\"{above}\" width=\"{width}\" height=\"14\"/>"
    )?)?;
    text.push_str(&format!(in alloc;
        "<text class=\"quiet\" x=\"{beside}\" y=\"{base}\">{bytes} bytes, {kind}, {packing}</text>\n"
    )?)
}

// A text in which no mark is one of XML.
fn push_escaped(text: &mut String, part: &str) -> Result<(), AllocError> {
    for c in part.chars() {
        match c {
            '&' => text.push_str("&amp;")?,
            '<' => text.push_str("&lt;")?,
            '>' => text.push_str("&gt;")?,
            c => text.push(c)?,
        }
    }
    Ok(())
}
