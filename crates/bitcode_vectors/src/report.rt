//! What the program prints of its rows.
use crate::rows;
use crate::rows::{typed, untyped};
use bitcode_test_support::Got;
use std::alloc::Global;
use std::io;

/// Prints a row's line, and answers whether the row is ok.
fn print_row(rt: &impl Print, number: u8, outcome: Result<(), Got>) -> io::Result<bool> {
    match outcome {
        Ok(()) => {
            println!(rt; "row {number} ok")?;
            Ok(true)
        }
        Err(got) => {
            println!(rt; "row {number} wrong: got {got}")?;
            Ok(false)
        }
    }
}

/// Runs rows 1 to 11 in order, and answers whether all of them are ok.
fn print_rows_to_11(rt: &impl Print, alloc: Global) -> io::Result<bool> {
    let mut all_ok = print_row(rt, 1, typed::unit(alloc))?;
    all_ok &= print_row(rt, 2, typed::bools(alloc))?;
    all_ok &= print_row(rt, 3, rows::texts::number_and_text(alloc))?;
    all_ok &= print_row(rt, 4, typed::arrays::three_bytes(alloc))?;
    all_ok &= print_row(rt, 5, typed::lists::shifted_integers(alloc))?;
    all_ok &= print_row(rt, 6, typed::lengths::lengths_written(alloc))?;
    all_ok &= print_row(rt, 7, typed::lengths::lengths_read(alloc))?;
    all_ok &= print_row(rt, 8, typed::arrays::more_bytes_than_a_length(alloc))?;
    all_ok &= print_row(rt, 9, typed::arrays::two_texts(alloc))?;
    all_ok &= print_row(rt, 10, typed::variants::last_of_six(alloc))?;
    all_ok &= print_row(rt, 11, typed::variants::counts_of_high_bytes(alloc))?;
    Ok(all_ok)
}

/// Runs rows 12 to 25 in order, and answers whether all of them are ok.
fn print_rows_to_25(rt: &impl Print, alloc: Global) -> io::Result<bool> {
    let mut all_ok = print_row(rt, 12, typed::fixed_capacity::two_bytes(alloc))?;
    all_ok &= print_row(rt, 13, typed::maps::equal_keys(alloc))?;
    all_ok &= print_row(rt, 14, untyped::sequences::columns_by_first_use(alloc))?;
    all_ok &= print_row(rt, 15, untyped::recursion(alloc))?;
    all_ok &= print_row(rt, 16, untyped::limits(alloc))?;
    all_ok &= print_row(rt, 17, rows::texts::durations(alloc))?;
    all_ok &= print_row(rt, 18, typed::lists::many_bools(alloc))?;
    all_ok &= print_row(rt, 19, typed::tuples::identifier(alloc))?;
    all_ok &= print_row(rt, 20, typed::buffers::emptied_list(alloc))?;
    all_ok &= print_row(rt, 21, typed::pair(alloc))?;
    all_ok &= print_row(rt, 22, typed::words_written(alloc))?;
    all_ok &= print_row(rt, 23, typed::words_read(alloc))?;
    all_ok &= print_row(rt, 24, rows::choices::options(alloc))?;
    all_ok &= print_row(rt, 25, rows::choices::two_variants(alloc))?;
    Ok(all_ok)
}

/// Runs rows 26 to 34 in order, and answers whether all of them are ok.
fn print_rows_to_34(rt: &impl Print, alloc: Global) -> io::Result<bool> {
    let mut all_ok = print_row(rt, 26, typed::fixed_capacity::five_hundred_bytes(alloc))?;
    all_ok &= print_row(rt, 27, typed::arrays::sums_of_lengths(alloc))?;
    all_ok &= print_row(rt, 28, rows::texts::checked_numbers(alloc))?;
    all_ok &= print_row(rt, 29, rows::choices::unused_bits_of_an_option(alloc))?;
    all_ok &= print_row(rt, 30, untyped::shapes::tables(alloc))?;
    all_ok &= print_row(rt, 31, typed::byte_columns::bytes_packed(alloc))?;
    all_ok &= print_row(rt, 32, typed::byte_columns::bytes_unpacked(alloc))?;
    all_ok &= print_row(rt, 33, rows::choices::results(alloc))?;
    all_ok &= print_row(rt, 34, rows::columns::one_number(alloc))?;
    Ok(all_ok)
}

/// Runs rows 35 to 45 in order, and answers whether all of them are ok.
fn print_rows_to_45(rt: &impl Print, alloc: Global) -> io::Result<bool> {
    let mut all_ok = print_row(rt, 35, typed::lists::late_least(alloc))?;
    all_ok &= print_row(rt, 36, typed::lists::nested_lists(alloc))?;
    all_ok &= print_row(rt, 37, rows::texts::texts_read(alloc))?;
    all_ok &= print_row(rt, 38, rows::texts::texts_written(alloc))?;
    all_ok &= print_row(rt, 39, rows::choices::one_variant_and_none(alloc))?;
    all_ok &= print_row(rt, 40, typed::variants::raw_variants(alloc))?;
    all_ok &= print_row(rt, 41, typed::composites(alloc))?;
    all_ok &= print_row(rt, 42, typed::arrays::more_units_than_a_length(alloc))?;
    all_ok &= print_row(rt, 43, typed::sets_and_heaps(alloc))?;
    all_ok &= print_row(rt, 44, typed::fixed_capacity::two_letters(alloc))?;
    all_ok &= print_row(rt, 45, typed::buffers::one_after_the_other(alloc))?;
    Ok(all_ok)
}

/// Runs rows 46 to 58 in order, and answers whether all of them are ok.
fn print_rows_to_58(rt: &impl Print, alloc: Global) -> io::Result<bool> {
    let mut all_ok = print_row(rt, 46, untyped::sequences::lists_of_bytes(alloc))?;
    all_ok &= print_row(rt, 47, untyped::composites(alloc))?;
    all_ok &= print_row(rt, 48, untyped::references::options_of_lists(alloc))?;
    all_ok &= print_row(rt, 49, untyped::references::chain(alloc))?;
    all_ok &= print_row(rt, 50, typed::room::pushed_items(alloc))?;
    all_ok &= print_row(rt, 51, typed::variants::counts_in_base_three(alloc))?;
    all_ok &= print_row(rt, 52, typed::variants::counts_in_base_six(alloc))?;
    all_ok &= print_row(rt, 53, typed::variants::counts_of_bits(alloc))?;
    all_ok &= print_row(rt, 54, rows::texts::long_texts(alloc))?;
    all_ok &= print_row(rt, 55, typed::chunks::two_chunks_of_lists(alloc))?;
    all_ok &= print_row(rt, 56, typed::chunks::longer_lists(alloc))?;
    all_ok &= print_row(rt, 57, typed::chunks::no_huge_arrays(alloc))?;
    all_ok &= print_row(rt, 58, rows::columns::columns_of_each_kind(alloc))?;
    Ok(all_ok)
}

/// Runs rows 59 to 61 in order, and answers whether all of them are ok.
fn print_rows_to_61(rt: &impl Print, alloc: Global) -> io::Result<bool> {
    let mut all_ok = print_row(rt, 59, typed::strict::digits_and_widths(alloc))?;
    all_ok &= print_row(rt, 60, typed::strict::lists_and_maps(alloc))?;
    all_ok &= print_row(rt, 61, untyped::strict_values::written_columns(alloc))?;
    Ok(all_ok)
}

/// Runs rows 62 and 63, and answers whether both are ok.
fn print_rows_to_63(rt: &impl Print, alloc: Global) -> io::Result<bool> {
    let mut all_ok = print_row(rt, 62, untyped::nodes::of_lists_and_options(alloc))?;
    all_ok &= print_row(rt, 63, untyped::nodes::of_units_pairs_and_bytes(alloc))?;
    Ok(all_ok)
}

/// Runs all stored rows in order, and answers whether all of them are ok.
pub fn print_rows(rt: &impl Print, alloc: Global) -> io::Result<bool> {
    let mut all_ok = print_rows_to_11(rt, alloc)?;
    all_ok &= print_rows_to_25(rt, alloc)?;
    all_ok &= print_rows_to_34(rt, alloc)?;
    all_ok &= print_rows_to_45(rt, alloc)?;
    all_ok &= print_rows_to_58(rt, alloc)?;
    all_ok &= print_rows_to_61(rt, alloc)?;
    all_ok &= print_rows_to_63(rt, alloc)?;
    Ok(all_ok)
}
