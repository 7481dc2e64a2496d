//! `Comment` in the second format. What is below the declarations was written by `scripts/second_format`.
ghost use Rattle.std.specs.Prelude.{◌≡◌, ◌≤◌, ℕ, length, IfOk, IfErr, OnOk};
ghost use Rattle.bitcode_serde_types.specs.Written.{text, column_free, IsSteady, Continues, IsRefusalAt, ReadsAs};
ghost use Rattle.bitcode_recursive_types.specs.CommentShape.{comment_tree, comment_datum};

use bitcode_serde_types::written::{
    Budget, DeserializeAs, Error, HasShape, Reader, SerializeAs, Writer, enter_list, find_field,
    follow, read_field, write_tuple,
};
use std::alloc::Global;

/// A comment and its replies.
#[derive(Drop)]
pub struct Comment<'a> {
    pub text: &'a str,
    pub replies: Vec<Comment<'a>>,
}

impl<'a> HasShape for Comment<'a> {
    ghost use Rattle.bitcode_recursive_types.specs.CommentShape.{comment_tree, comment_datum, comment_sound};

    ghost tree = { comment_tree };

    ghost datum = { comment_datum };

    ghost sound = { comment_sound };
}

impl<'a> SerializeAs for Comment<'a> {
    fn write(&self, writer: &mut Writer, left: usize, place: usize) -> Result<(), Error> {
        let below = follow(left)?;
        write_tuple(&(&self.text, (&self.replies, ())), 2, writer, below, place)
    }
}

impl<'a> DeserializeAs<'a> for Comment<'a> {
    ghost use Rattle.bitcode_recursive_types.specs.CommentShape.{comment_tree, comment_datum};

    fn is_free() -> bool
        ensures { (left : ℕ) → result ≡ column_free (comment_tree left) }
    {
        false
    }

    fn read(
        alloc: Global,
        reader: &mut Reader<'a>,
        budget: &mut Budget,
        left: usize,
        place: usize,
    ) -> Result<Comment<'a>, Error>
        requires place { place ≤ length reader.old.places.below.items }
        requires steady { IsSteady reader.old }
        ensures continues { OnOk result (Continues reader.old reader.new) }
        ensures read { IfOk result
            (λ t. ReadsAs comment_datum (comment_tree left) place reader.old budget.old t reader.new
            budget.new) }
        ensures refused { IfErr result
            (λ e. IsRefusalAt (comment_tree left) place reader.old e.reason) }
    {
        read_comment(alloc, reader, budget, left, place)
    }
}

// Reads a value of `Comment`.
#[cycle(comment)]
fn read_comment<'a>(
    alloc: Global,
    reader: &mut Reader<'a>,
    budget: &mut Budget,
    left: usize,
    place: usize,
) -> Result<Comment<'a>, Error>
    requires place { place ≤ length reader.old.places.below.items }
    requires steady { IsSteady reader.old }
    ensures continues { OnOk result (Continues reader.old reader.new) }
    ensures read { IfOk result
        (λ t. ReadsAs comment_datum (comment_tree left) place reader.old budget.old t reader.new
        budget.new) }
    ensures refused { IfErr result
        (λ e. IsRefusalAt (comment_tree left) place reader.old e.reason) }
{
    let below = follow(left)?;
    budget.take(1);
    let text: &'a str = read_field(alloc, reader, budget, below, place, 0, 2)?;
    let place1 = find_field(reader, place, 1, 2)?;
    let found1 = enter_list(reader, budget, false, place1)?;
    let mut replies = Vec::new(alloc);
    for _i in 0..found1.count {
        let item = read_comment(alloc, reader, budget, below, found1.place)?;
        budget.keep(&mut replies, item)?;
    }
    Ok(Comment { text, replies })
}
