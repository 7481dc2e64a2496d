//! `Directory`, `Entry` in the second format. What is below the declarations was written by `scripts/second_format`.
ghost use Rattle.std.specs.Prelude.{◌≤◌, length, IfOk, IfErr, OnOk};
ghost use Rattle.bitcode_serde_types.specs.Written.{IsSteady, Continues, IsRefusalAt, ReadsAs};
ghost use Rattle.bitcode_recursive_types.specs.DirectoryShape.{directory_tree, directory_datum, entry_tree};
ghost use Rattle.bitcode_recursive_types.specs.DirectoryShape.{entry_datum};

use bitcode_serde_types::written::{
    Budget, DeserializeAs, Error, HasShape, Reader, Reason, SerializeAs, Writer, enter_list,
    enter_variant, find_field, follow, read_at, read_field, write_tuple, write_variant,
};
use std::alloc::Global;

/// A folder.
#[cycle(directory_types)]
#[derive(Drop)]
pub struct Directory {
    pub name: String,
    pub entries: Vec<Entry>,
}

/// What a folder holds.
#[cycle(directory_types)]
#[derive(Drop)]
pub enum Entry {
    File(u64),
    Folder(Directory),
    Nothing,
    Link { target: String, offset: i64 },
}

impl HasShape for Directory {
    ghost use Rattle.bitcode_recursive_types.specs.DirectoryShape.{directory_tree, directory_datum, directory_sound};

    ghost tree = { directory_tree };

    ghost datum = { directory_datum };

    ghost sound = { directory_sound };
}

impl SerializeAs for Directory {
    #[cycle(directory_write)]
    fn write(&self, writer: &mut Writer, left: usize, place: usize) -> Result<(), Error> {
        let below = follow(left)?;
        write_tuple(&(&self.name, (&self.entries, ())), 2, writer, below, place)
    }
}

impl<'a> DeserializeAs<'a> for Directory {
    fn is_free() -> bool {
        false
    }

    fn read(
        alloc: Global,
        reader: &mut Reader<'a>,
        budget: &mut Budget,
        left: usize,
        place: usize,
    ) -> Result<Directory, Error> {
        read_directory(alloc, reader, budget, left, place)
    }
}

impl HasShape for Entry {
    ghost use Rattle.bitcode_recursive_types.specs.DirectoryShape.{entry_tree, entry_datum, entry_sound};

    ghost tree = { entry_tree };

    ghost datum = { entry_datum };

    ghost sound = { entry_sound };
}

impl SerializeAs for Entry {
    #[cycle(directory_write)]
    fn write(&self, writer: &mut Writer, left: usize, place: usize) -> Result<(), Error> {
        let below = follow(left)?;
        match self {
            Entry::File(x0) => { write_variant(x0, 0, writer, below, place) }
            Entry::Folder(x0) => { write_variant(x0, 1, writer, below, place) }
            Entry::Nothing => { write_variant(&(), 2, writer, below, place) }
            Entry::Link { target, offset } => {
                write_variant(&(target, offset), 3, writer, below, place)
            }
        }
    }
}

impl<'a> DeserializeAs<'a> for Entry {
    fn is_free() -> bool {
        false
    }

    fn read(
        alloc: Global,
        reader: &mut Reader<'a>,
        budget: &mut Budget,
        left: usize,
        place: usize,
    ) -> Result<Entry, Error> {
        read_entry(alloc, reader, budget, left, place)
    }
}

// Reads a value of `Directory`.
#[cycle(directory)]
fn read_directory(
    alloc: Global,
    reader: &mut Reader<'_>,
    budget: &mut Budget,
    left: usize,
    place: usize,
) -> Result<Directory, Error>
    requires place { place ≤ length reader.old.places.below.items }
    requires steady { IsSteady reader.old }
    ensures continues { OnOk result (Continues reader.old reader.new) }
    ensures read { IfOk result
        (λ t. ReadsAs directory_datum (directory_tree left) place reader.old budget.old t reader.new
        budget.new) }
    ensures refused { IfErr result
        (λ e. IsRefusalAt (directory_tree left) place reader.old e.reason) }
{
    let below = follow(left)?;
    budget.take(1);
    let name: String = read_field(alloc, reader, budget, below, place, 0, 2)?;
    let place1 = find_field(reader, place, 1, 2)?;
    let found1 = enter_list(reader, budget, false, place1)?;
    let mut entries = Vec::new(alloc);
    for _i in 0..found1.count {
        let item = read_entry(alloc, reader, budget, below, found1.place)?;
        budget.keep(&mut entries, item)?;
    }
    Ok(Directory { name, entries })
}

// Reads a value of `Entry`.
#[cycle(directory)]
fn read_entry(
    alloc: Global,
    reader: &mut Reader<'_>,
    budget: &mut Budget,
    left: usize,
    place: usize,
) -> Result<Entry, Error>
    requires place { place ≤ length reader.old.places.below.items }
    requires steady { IsSteady reader.old }
    ensures continues { OnOk result (Continues reader.old reader.new) }
    ensures read { IfOk result
        (λ t. ReadsAs entry_datum (entry_tree left) place reader.old budget.old t reader.new
        budget.new) }
    ensures refused { IfErr result (λ e. IsRefusalAt (entry_tree left) place reader.old e.reason) }
{
    let below = follow(left)?;
    let found = enter_variant(reader, budget, 4, Reason::InvalidEnumVariant, place)?;
    match found.index {
        0 => {
            let held: u64 = read_at(alloc, reader, budget, below, found.place)?;
            Ok(Entry::File(held))
        }
        1 => {
            let held = read_directory(alloc, reader, budget, below, found.place)?;
            Ok(Entry::Folder(held))
        }
        2 => {
            budget.take(1);
            Ok(Entry::Nothing)
        }
        _ => {
            let held: (String, i64) = read_at(alloc, reader, budget, below, found.place)?;
            Ok(Entry::Link {
                target: held.0,
                offset: held.1,
            })
        }
    }
}
