//! A table as a program writes it: rows in, columns out.
use crate::sale::Sale;
use bitcode::{Error, encode};
use std::alloc::Global;

/// How many sales there are.
const SALES: u32 = 1000;

/// A sale of an example.
fn sale(number: u32) -> Sale<'static> {
    let product = match number % 4 {
        0 => "bread",
        1 => "tea",
        2 => "rice",
        _ => "oil",
    };
    Sale {
        product,
        region: (number % 16) as u16,
        cents: 95 + number % SALES * 7 % 400,
    }
}

/// The bytes of a table of sales.
pub fn write(alloc: Global) -> Result<Vec<u8>, Error> {
    let mut sales = Vec::with_capacity(alloc, SALES as usize)?;
    for number in 0..SALES {
        sales.push(sale(number))?;
    }
    encode(alloc, &sales)
}
