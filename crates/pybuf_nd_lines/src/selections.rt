//! Which bytes of an input are asked for, and these bytes.
ghost use Rattle.std.specs.Prelude.{◌≡◌, ◌<◌, ◌^◌, length, IfOk};
ghost use Rattle.pybuf_desc.specs.Layouts.{product, LiesInside};
ghost use Rattle.pybuf_desc.specs.Items.{content_of_layout};
ghost use Rattle.pybuf_nd.specs.Axes.{transposition_of};
ghost use Rattle.pybuf_nd_lines.specs.Shapes.{IsShape};
ghost use Rattle.pybuf_nd_lines.specs.Selections.{bytes_due, transposed_if, selection_spelled, selection_in, selection_text};

use crate::cutting::{cut, in_shape, turn};
use crate::keys::slices_of_word;
use crate::shapes::shape_of_word;
use pybuf_index::SaturatedSlice;
use pybuf_line::is_word;
use pybuf_memoryview::{KeptLayout, content_of};
use pybuf_value::{CountList, Items, Made, Outcome, Text};
use std::alloc::Global;
use std::marker::Model;

/// The bytes that slices pick of bytes in a shape, with one slice for each dimension, or the
/// transposition of what they pick.
///
/// Example: of the shape `[2,3]` and the slices `::-1` and `1:3` it picks, of the bytes 0 to 5, 4, 5, 1, 2.
#[derive(Debug, Drop)]
pub struct Selection {
    shape: CountList,
    slices: Items<SaturatedSlice>,
    transposed: bool,
}

impl Model for Selection {
    ghost use Rattle.pybuf_nd_lines.specs.Selections.{IsSelection, Selection};

    ghost Value = { Selection };

    ghost view = { λ s. record { shape = s.shape; slices = s.slices; transposed = s.transposed } };

    ghost invariant = { λ s. IsSelection (record { shape = s.shape; slices = s.slices; transposed = s.transposed }) };
}

/// The selection that a shape and slices ask for.
fn selection_of_key(
    alloc: Global,
    shape: &Text,
    key: &Text,
    transposed: bool,
) -> Made<Option<Selection>>
    ensures { IfOk result (λ selection. selection ≡ selection_spelled shape.now key.now transposed) }
{
    let Some(shape) = shape_of_word(alloc, shape.as_slice())? else {
        return Ok(None);
    };
    let Some(slices) = slices_of_word(alloc, key.as_slice())? else {
        return Ok(None);
    };
    if slices.len() == shape.len() {
        Ok(Some(Selection {
            shape,
            slices,
            transposed,
        }))
    } else {
        Ok(None)
    }
}

/// What words ask for: a shape, and a tuple of as many slices as it has dimensions. The shape is a list
/// of one to 64 numbers from 1 on, with a product of at most 1,048,576. The word `T` behind both asks
/// for the transposition.
///
/// None exactly where a word is misspelled, there are more slices or fewer, one of them is refused, or
/// there are more words or fewer.
///
/// Example: of `[2,3]` and `(None:None:-1,1:3:None)` it gives a selection; `(1:2:None)` has too few slices.
pub fn selection_of_words(alloc: Global, words: &[Text]) -> Made<Option<Selection>>
    ensures { IfOk result (λ selection. selection ≡ selection_in words.now) }
{
    match words {
        [shape, key] => selection_of_key(alloc, shape, key, false),
        [shape, key, turn] => {
            if is_word(turn.as_slice(), "T") {
                return selection_of_key(alloc, shape, key, true);
            }
            Ok(None)
        }
        _ => Ok(None),
    }
}

/// The bytes of a view, or of its transposition.
fn bytes_turned(alloc: Global, input: &[u8], view: &KeptLayout, transposed: bool) -> Made<Vec<u8>>
    requires { LiesInside (length input.now) view.now }
    ensures { IfOk result (λ bytes. bytes.items ≡ content_of_layout input.now (transposed_if transposed view.now)) }
{
    pybuf_nd::transpositions_are_column_order();
    if !transposed {
        return content_of(alloc, input, view);
    }
    match turn(alloc, view)? {
        Outcome::Done(turned) => content_of(alloc, input, &turned),
        // this is refused if a dimension has no entry, and then there are no bytes
        Outcome::Refused(_) => Ok(Vec::new(alloc)),
    }
}

impl Selection {
    /// How many bytes the shape has.
    ///
    /// Example: of the shape `[2,3]` it is 6.
    pub fn bytes_due(&self) -> usize
        ensures value { result ≡ bytes_due self.now }
        ensures small { result < 2 ^ 63 }
    {
        let mut items = 1;
        for entries in self.shape.as_slice() {
            items *= *entries;
        }
        items
    }

    /// The bytes of an input that are asked for, row-major, where it has as many bytes as the shape.
    ///
    /// Example: of the shape `[2,3]`, the slices `::-1` and `1:3`, and the bytes 0 to 5 it gives 4, 5, 1, 2.
    pub fn bytes_of(&self, alloc: Global, input: &[u8]) -> Made<Vec<u8>>
        requires { length input.now ≡ bytes_due self.now }
        ensures { IfOk result (λ bytes. bytes.items ≡ selection_text self.now input.now) }
    {
        pybuf_nd::transpositions_are_column_order();
        let whole = in_shape(alloc, input.len(), self.shape.as_slice())?;
        match cut(alloc, &whole, self.slices.as_slice())? {
            Outcome::Done(view) => bytes_turned(alloc, input, &view, self.transposed),
            // this is refused if a slice picks nothing, and then there are no bytes
            Outcome::Refused(_) => Ok(Vec::new(alloc)),
        }
    }
}
