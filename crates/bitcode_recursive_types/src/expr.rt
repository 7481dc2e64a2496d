//! `Expr` in the second format. What is below the declarations was written by `scripts/second_format`.
ghost use Rattle.std.specs.Prelude.{◌≤◌, length, map, string_bytes, IfOk, IfErr, OnOk};
ghost use Rattle.bitcode_serde_types.specs.Written.{text, list, tuple, no_data, datum_and, data_of, text_tree};
ghost use Rattle.bitcode_serde_types.specs.Written.{map_tree, tuple_tree, IsSteady, Continues, IsRefusalAt, map_datum};
ghost use Rattle.bitcode_serde_types.specs.Written.{ReadsAs};
ghost use Rattle.bitcode_recursive_types.specs.ExprShape.{expr_tree, expr_datum, expr_add_trees, expr_call_trees};
ghost use Rattle.bitcode_recursive_types.specs.ExprShape.{expr_bind_trees};

use bitcode_serde_types::written::{
    Budget, DeserializeAs, Error, HasShape, Reader, Reason, SerializeAs, Writer, enter_list,
    enter_map, enter_variant, find_field, follow, ordered_map, read_at, read_field, write_variant,
};
use std::alloc::Global;
use std::collections::BTreeMap;

/// An expression.
#[derive(Drop)]
pub enum Expr {
    Num(i64),
    Neg(Box<Expr>),
    Add(Box<Expr>, Box<Expr>),
    Call(String, Vec<Expr>),
    Bind(BTreeMap<String, Expr>, Box<Expr>),
}

impl HasShape for Expr {
    ghost use Rattle.bitcode_recursive_types.specs.ExprShape.{expr_tree, expr_datum, expr_sound};

    ghost tree = { expr_tree };

    ghost datum = { expr_datum };

    ghost sound = { expr_sound };
}

impl SerializeAs for Expr {
    fn write(&self, writer: &mut Writer, left: usize, place: usize) -> Result<(), Error> {
        let below = follow(left)?;
        match self {
            Expr::Num(x0) => { write_variant(x0, 0, writer, below, place) }
            Expr::Neg(x0) => { write_variant(x0, 1, writer, below, place) }
            Expr::Add(x0, x1) => { write_variant(&(x0, x1), 2, writer, below, place) }
            Expr::Call(x0, x1) => { write_variant(&(x0, x1), 3, writer, below, place) }
            Expr::Bind(x0, x1) => { write_variant(&(x0, x1), 4, writer, below, place) }
        }
    }
}

impl<'a> DeserializeAs<'a> for Expr {
    fn is_free() -> bool {
        false
    }

    fn read(
        alloc: Global,
        reader: &mut Reader<'a>,
        budget: &mut Budget,
        left: usize,
        place: usize,
    ) -> Result<Expr, Error> {
        read_expr(alloc, reader, budget, left, place)
    }
}

// Reads a value of `Expr`.
#[cycle(expr)]
fn read_expr(
    alloc: Global,
    reader: &mut Reader<'_>,
    budget: &mut Budget,
    left: usize,
    place: usize,
) -> Result<Expr, Error>
    requires place { place ≤ length reader.old.places.below.items }
    requires steady { IsSteady reader.old }
    ensures continues { OnOk result (Continues reader.old reader.new) }
    ensures read { IfOk result
        (λ t. ReadsAs expr_datum (expr_tree left) place reader.old budget.old t reader.new
        budget.new) }
    ensures refused { IfErr result (λ e. IsRefusalAt (expr_tree left) place reader.old e.reason) }
{
    let below = follow(left)?;
    let found = enter_variant(reader, budget, 5, Reason::InvalidEnumVariant, place)?;
    match found.index {
        0 => {
            let held: i64 = read_at(alloc, reader, budget, below, found.place)?;
            Ok(Expr::Num(held))
        }
        1 => {
            let value = read_expr(alloc, reader, budget, below, found.place)?;
            let held = Box::new(alloc, value)?;
            Ok(Expr::Neg(held))
        }
        2 => {
            let held = read_expr_add(alloc, reader, budget, below, found.place)?;
            Ok(Expr::Add(held.0, held.1))
        }
        3 => {
            let held = read_expr_call(alloc, reader, budget, below, found.place)?;
            Ok(Expr::Call(held.0, held.1))
        }
        _ => {
            let held = read_expr_bind(alloc, reader, budget, below, found.place)?;
            Ok(Expr::Bind(held.0, held.1))
        }
    }
}

// Reads the fields of `Add`.
#[cycle(expr)]
fn read_expr_add(
    alloc: Global,
    reader: &mut Reader<'_>,
    budget: &mut Budget,
    left: usize,
    place: usize,
) -> Result<(Box<Expr>, Box<Expr>), Error>
    requires place { place ≤ length reader.old.places.below.items }
    requires steady { IsSteady reader.old }
    ensures continues { OnOk result (Continues reader.old reader.new) }
    ensures read { IfOk result
        (λ t. ReadsAs
        (λ t. tuple (datum_and (expr_datum t.0.value) (datum_and (expr_datum t.1.value) no_data)))
        (tuple_tree (expr_add_trees left)) place reader.old budget.old t reader.new budget.new) }
    ensures refused { IfErr result
        (λ e. IsRefusalAt (tuple_tree (expr_add_trees left)) place reader.old e.reason) }
{
    budget.take(1);
    let place0 = find_field(reader, place, 0, 2)?;
    let value0 = read_expr(alloc, reader, budget, left, place0)?;
    let field0 = Box::new(alloc, value0)?;
    let place1 = find_field(reader, place, 1, 2)?;
    let value1 = read_expr(alloc, reader, budget, left, place1)?;
    let field1 = Box::new(alloc, value1)?;
    Ok((field0, field1))
}

// Reads the fields of `Call`.
#[cycle(expr)]
fn read_expr_call(
    alloc: Global,
    reader: &mut Reader<'_>,
    budget: &mut Budget,
    left: usize,
    place: usize,
) -> Result<(String, Vec<Expr>), Error>
    requires place { place ≤ length reader.old.places.below.items }
    requires steady { IsSteady reader.old }
    ensures continues { OnOk result (Continues reader.old reader.new) }
    ensures read { IfOk result
        (λ t. ReadsAs
        (λ t. tuple (datum_and (text (string_bytes t.0))
        (datum_and (list (data_of (map expr_datum t.1.items))) no_data)))
        (tuple_tree (expr_call_trees left)) place reader.old budget.old t reader.new budget.new) }
    ensures refused { IfErr result
        (λ e. IsRefusalAt (tuple_tree (expr_call_trees left)) place reader.old e.reason) }
{
    budget.take(1);
    let field0: String = read_field(alloc, reader, budget, left, place, 0, 2)?;
    let place1 = find_field(reader, place, 1, 2)?;
    let found1 = enter_list(reader, budget, false, place1)?;
    let mut field1 = Vec::new(alloc);
    for _i in 0..found1.count {
        let item = read_expr(alloc, reader, budget, left, found1.place)?;
        budget.keep(&mut field1, item)?;
    }
    Ok((field0, field1))
}

// Reads the fields of `Bind`.
#[cycle(expr)]
fn read_expr_bind(
    alloc: Global,
    reader: &mut Reader<'_>,
    budget: &mut Budget,
    left: usize,
    place: usize,
) -> Result<(BTreeMap<String, Expr>, Box<Expr>), Error>
    requires place { place ≤ length reader.old.places.below.items }
    requires steady { IsSteady reader.old }
    ensures continues { OnOk result (Continues reader.old reader.new) }
    ensures read { IfOk result
        (λ t. ReadsAs
        (λ t. tuple (datum_and (map_datum (λ s. text (string_bytes s)) expr_datum t.0.entries)
        (datum_and (expr_datum t.1.value) no_data))) (tuple_tree (expr_bind_trees left)) place
        reader.old budget.old t reader.new budget.new) }
    ensures refused { IfErr result
        (λ e. IsRefusalAt (tuple_tree (expr_bind_trees left)) place reader.old e.reason) }
{
    budget.take(1);
    let place0 = find_field(reader, place, 0, 2)?;
    let field0 = read_expr_by_string(alloc, reader, budget, left, place0)?;
    let place1 = find_field(reader, place, 1, 2)?;
    let value1 = read_expr(alloc, reader, budget, left, place1)?;
    let field1 = Box::new(alloc, value1)?;
    Ok((field0, field1))
}

// Reads a map to `Expr`.
#[cycle(expr)]
fn read_expr_by_string(
    alloc: Global,
    reader: &mut Reader<'_>,
    budget: &mut Budget,
    left: usize,
    place: usize,
) -> Result<BTreeMap<String, Expr>, Error>
    requires place { place ≤ length reader.old.places.below.items }
    requires steady { IsSteady reader.old }
    ensures continues { OnOk result (Continues reader.old reader.new) }
    ensures read { IfOk result
        (λ t. ReadsAs (λ m. map_datum (λ s. text (string_bytes s)) expr_datum m.entries)
        (map_tree text_tree (expr_tree left)) place reader.old budget.old t reader.new budget.new) }
    ensures refused { IfErr result
        (λ e. IsRefusalAt (map_tree text_tree (expr_tree left)) place reader.old e.reason) }
{
    let found = enter_map(reader, budget, place)?;
    let mut pairs = Vec::new(alloc);
    for _i in 0..found.count {
        budget.take(1);
        let key: String = read_at(alloc, reader, budget, left, found.keys)?;
        let value = read_expr(alloc, reader, budget, left, found.values)?;
        budget.keep(&mut pairs, (key, value))?;
    }
    let made = ordered_map(alloc, pairs)?;
    Ok(made)
}
