//! The columns of an input as a table, and as JSON.
use crate::column::Column;
use crate::column_text::{kind_text, packing_text, path_text};
use json::Writer;
use std::alloc::{AllocError, Global};

// How many cells the bar of all bytes has.
const CELLS: usize = 20;

// What heads the columns of the table. Numbers are on the right in theirs.
const HEADS: [&str; 7] = [
    "column", "kind", "entries", "offset", "bytes", "packing", "share",
];

const NUMBERS: [bool; 7] = [false, false, true, true, true, false, false];

/// The table of an input's columns: a line for each, with a bar for its share of the bytes.
pub fn table(alloc: Global, parts: &[Column]) -> Result<String, AllocError> {
    let mut all = 0usize;
    for part in parts {
        all = all.saturating_add(part.extent.size);
    }
    let mut rows = Vec::new(alloc);
    rows.push(head(alloc)?)?;
    for part in parts {
        rows.push(row(alloc, part, all)?)?;
    }
    let widths = widths_of(alloc, &rows)?;
    let mut text = String::new(alloc);
    for row in &rows {
        push_row(&mut text, row, &widths)?;
    }
    Ok(text)
}

fn head(alloc: Global) -> Result<Vec<String>, AllocError> {
    let mut cells = Vec::new(alloc);
    for name in &HEADS {
        cells.push(String::from_str(alloc, name)?)?;
    }
    Ok(cells)
}

fn row(alloc: Global, part: &Column, all: usize) -> Result<Vec<String>, AllocError> {
    let entries = part.entries;
    let offset = part.offset;
    let size = part.extent.size;
    let share = share_of(size, all, 100);
    let bar = bar(alloc, share_of(size, all, CELLS))?;
    let mut cells = Vec::with_capacity(alloc, HEADS.len())?;
    cells.push(String::from_str(alloc, path_text(part))?)?;
    cells.push(kind_text(alloc, part.kind)?)?;
    cells.push(format!(in alloc; "{entries}")?)?;
    cells.push(format!(in alloc; "{offset}")?)?;
    cells.push(format!(in alloc; "{size}")?)?;
    cells.push(packing_text(alloc, part)?)?;
    cells.push(format!(in alloc; "{share:>3}%{bar}")?)?;
    Ok(cells)
}

/// How many of so many cells the bytes take of all bytes.
pub fn share_of(bytes: usize, all: usize, cells: usize) -> usize {
    if bytes >= all {
        return if all == 0 { 0 } else { cells };
    }
    (bytes as u128 * cells as u128 / all as u128) as usize
}

fn bar(alloc: Global, cells: usize) -> Result<String, AllocError> {
    let mut text = String::new(alloc);
    if cells > 0 {
        text.push_str(" ")?;
    }
    for _ in 0..cells {
        text.push_str("█")?;
    }
    Ok(text)
}

/// The same as a list of JSON.
pub fn table_json(alloc: Global, parts: &[Column]) -> Result<Vec<u8>, AllocError> {
    let mut out = Writer::new(Vec::new(alloc));
    out.begin_array()?;
    for part in parts {
        out.begin_object()?;
        out.key("path")?;
        out.string(&part.path)?;
        out.key("kind")?;
        out.string(&kind_text(alloc, part.kind)?)?;
        out.key("entries")?;
        out.u64(part.entries as u64)?;
        out.key("offset")?;
        out.u64(part.offset as u64)?;
        out.key("bytes")?;
        out.u64(part.extent.size as u64)?;
        out.key("packing")?;
        out.string(&packing_text(alloc, part)?)?;
        out.end_object()?;
    }
    out.end_array()?;
    let mut bytes = out.into_inner();
    bytes.push(b'\n')?;
    Ok(bytes)
}

// How wide each column of the table is.
fn widths_of(alloc: Global, rows: &[Vec<String>]) -> Result<Vec<usize>, AllocError> {
    let mut widths = vec![in alloc; 0usize; HEADS.len()]?;
    for row in rows {
        for (width, cell) in widths.iter_mut().zip(row) {
            *width = (*width).max(cell.chars().count());
        }
    }
    Ok(widths)
}

fn push_row(text: &mut String, cells: &[String], widths: &[usize]) -> Result<(), AllocError> {
    let mut gap = 0usize;
    for ((cell, width), is_number) in cells.iter().zip(widths).zip(&NUMBERS) {
        let missing = width.saturating_sub(cell.chars().count());
        if *is_number {
            gap = gap.saturating_add(missing);
        }
        push_spaces(text, gap)?;
        text.push_str(cell)?;
        gap = if *is_number {
            2
        } else {
            missing.saturating_add(2)
        };
    }
    text.push_str("\n")
}

fn push_spaces(text: &mut String, count: usize) -> Result<(), AllocError> {
    for _ in 0..count {
        text.push_str(" ")?;
    }
    Ok(())
}
