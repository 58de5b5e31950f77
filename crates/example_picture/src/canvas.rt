//! A picture whose parts are cropped, flipped and turned by views that share its bytes.
ghost use Rattle.std.specs.Prelude.{◌≡◌, ◌<◌, ◌≤◌, ◌*◌, ◌^◌, ◌+ℤ◌, ◌≤ℤ◌, ◌<ℤ◌, pos, nat_abs, length, set, slice_index, IfOk, OnErr};
ghost use Rattle.pybuf_desc.specs.Places.{layout_at};
ghost use Rattle.pybuf_desc.specs.Valid.{IsValid, IsPlaced};
ghost use Rattle.example_picture.specs.Cuts.{part_of, IsFrame};
ghost use Rattle.example_picture.specs.Parts.{Part, place, IsCropped, IsFlipped, IsTurned, IsWhole};
ghost use Rattle.example_picture.specs.Pictures.{picture_of, part_at, IsGiven, HasLevel};

use crate::parts::{cropped_part, flipped_part, turned_part, whole_part};
use pybuf_buffer::PyBuffer;
use pybuf_command::ExporterKind;
use pybuf_desc::BufferDescriptor;
use pybuf_exporter::ExporterState;
use pybuf_value::{ByteList, Made};
use std::alloc::Global;
use std::marker::Model;
use std::ops::Range;

/// A picture: a level from 0 to 255 for each channel of each pixel, in the bytes of a bytearray. Its parts are buffers
/// over these bytes, which are never copied: what is painted in a part is seen in the picture and in all other parts.
///
/// A clause sees the levels, and of each part that was given which levels it shows.
#[derive(Debug, Drop)]
pub struct Picture {
    state: ExporterState,
    rows: usize,
    columns: usize,
    channels: usize,
    alloc: Global,
}

impl Model for Picture {
    ghost use Rattle.example_picture.specs.Pictures.{Picture, picture_in, IsPicture};

    ghost Value = { Picture };

    ghost view = { λ p. picture_in p.rows p.columns p.channels p.state.exporter };

    ghost invariant = { λ p. IsPicture p.rows p.columns p.channels p.state.exporter };
}

/// The place that lies so far from another.
fn place_after(place: usize, distance: isize) -> usize
    requires place_fits { place < 2 ^ 63 }
    requires low { pos 0 ≤ℤ (pos place +ℤ distance) }
    requires high { (pos place +ℤ distance) <ℤ pos (2 ^ 63) }
    ensures { result ≡ nat_abs (pos place +ℤ distance) }
{
    (place as isize + distance) as usize
}

impl Picture {
    /// A picture of these levels, row by row, and in a row pixel by pixel. Takes no memory.
    pub fn new(
        alloc: Global,
        rows: usize,
        columns: usize,
        channels: usize,
        levels: Vec<u8>,
    ) -> Picture
        requires some_row { 0 < rows }
        requires some_column { 0 < columns }
        requires some_channel { 0 < channels }
        requires size { length levels.items ≡ rows * (columns * channels) }
        ensures { result ≡ picture_of rows columns channels levels.items }
    {
        let levels = ByteList::from_vec(levels);
        Picture {
            state: ExporterState::new(alloc, ExporterKind::ByteArray, levels),
            rows,
            columns,
            channels,
            alloc,
        }
    }

    /// The levels, row by row, and in a row pixel by pixel.
    pub fn levels(&self) -> &[u8]
        ensures { result.now ≡ self.now.levels }
    {
        self.state.bytes()
    }

    /// The descriptor of a part, and the place of its first level.
    fn described(&self, part: &PyBuffer) -> (&BufferDescriptor, usize)
        requires { part.now < length self.now.parts }
        ensures placed { IsPlaced result.0.now result.1 }
        ensures valid { IsValid result.0.now result.1 (length self.now.levels) }
        ensures frame { IsFrame (layout_at result.0.now result.1) }
        ensures part { part_of (layout_at result.0.now result.1) ≡ part_at self.now part.now }
    {
        pybuf_desc::descriptors_stand_for_one_view();
        match self.state.view_desc(part.number()) {
            Some(described) => described,
            None => unreachable!(),
        }
    }

    /// One more part.
    fn add(&mut self, desc: BufferDescriptor, start: usize) -> Made<PyBuffer>
        requires valid { IsValid desc start (length self.old.levels) }
        requires frame { IsFrame (layout_at desc start) }
        ensures ok { IfOk result (λ part. IsGiven self.old (part_of (layout_at desc start)) self.new part) }
        ensures err { OnErr result (self.new ≡ self.old) }
    {
        pybuf_desc::placed_descriptors_stand();
        pybuf_desc::described_views_have_their_shape();
        pybuf_desc::valid_where_items_lie_inside();
        pybuf_state::whole_layouts_are_sound();
        let _room = self.state.bytes().len();
        let number = self.state.add_view(desc, start)?;
        Ok(PyBuffer::of(number))
    }

    /// The whole picture as a part. Where memory runs out, nothing is changed.
    pub fn whole(&mut self) -> Made<PyBuffer>
        ensures ok { IfOk result (λ whole. (part : Part) × IsWhole self.old.rows self.old.columns self.old.channels part × IsGiven self.old part self.new whole) }
        ensures err { OnErr result (self.new ≡ self.old) }
    {
        let count = self.state.bytes().len();
        let (desc, start) = whole_part(self.alloc, self.rows, self.columns, self.channels, count)?;
        self.add(desc, start)
    }

    /// Of a part the rows and columns in these ranges, in which there are some. Where memory runs out, nothing is
    /// changed.
    pub fn crop(
        &mut self,
        part: &PyBuffer,
        rows: Range<usize>,
        columns: Range<usize>,
    ) -> Made<PyBuffer>
        requires given { part.now < length self.old.parts }
        requires some_row { rows.start < rows.end }
        requires row { rows.end ≤ (part_at self.old part.now).rows }
        requires some_column { columns.start < columns.end }
        requires column { columns.end ≤ (part_at self.old part.now).columns }
        ensures ok { IfOk result (λ made. (cropped : Part) × IsCropped (part_at self.old part.now) rows columns cropped × IsGiven self.old cropped self.new made) }
        ensures err { OnErr result (self.new ≡ self.old) }
    {
        let (desc, start) = self.described(part);
        let (desc, start) = cropped_part(self.alloc, desc, start, rows, columns)?;
        self.add(desc, start)
    }

    /// A part with left and right in each other's place. Where memory runs out, nothing is changed.
    pub fn flip(&mut self, part: &PyBuffer) -> Made<PyBuffer>
        requires { part.now < length self.old.parts }
        ensures ok { IfOk result (λ made. (flipped : Part) × IsFlipped (part_at self.old part.now) flipped × IsGiven self.old flipped self.new made) }
        ensures err { OnErr result (self.new ≡ self.old) }
    {
        let (desc, start) = self.described(part);
        let (desc, start) = flipped_part(self.alloc, desc, start)?;
        self.add(desc, start)
    }

    /// A part turned to the right by a quarter: its last row is the first column. Where memory runs out, nothing is
    /// changed.
    pub fn turn(&mut self, part: &PyBuffer) -> Made<PyBuffer>
        requires { part.now < length self.old.parts }
        ensures ok { IfOk result (λ made. (turned : Part) × IsTurned (part_at self.old part.now) turned × IsGiven self.old turned self.new made) }
        ensures err { OnErr result (self.new ≡ self.old) }
    {
        let (desc, start) = self.described(part);
        let (desc, start) = turned_part(self.alloc, desc, start)?;
        self.add(desc, start)
    }

    /// Which of the picture's levels a part shows there.
    fn place_in(&self, part: &PyBuffer, row: usize, column: usize, channel: usize) -> usize
        requires given { part.now < length self.now.parts }
        requires level { HasLevel (part_at self.now part.now) row column channel }
        ensures place { result ≡ place (part_at self.now part.now) row column channel }
        ensures inside { result < length self.now.levels }
    {
        pybuf_desc::placed_descriptors_stand();
        pybuf_desc::positions_are_places();
        pybuf_desc::valid_where_items_lie_inside();
        let (desc, start) = self.described(part);
        place_after(start, desc.fast_position(&[row, column, channel]))
    }

    /// The level that a part shows in a row, a column and a channel.
    pub fn level(&self, part: &PyBuffer, row: usize, column: usize, channel: usize) -> u8
        requires given { part.now < length self.now.parts }
        requires level { HasLevel (part_at self.now part.now) row column channel }
        ensures { result ≡ slice_index self.now.levels (place (part_at self.now part.now) row column channel) }
    {
        self.state.bytes()[self.place_in(part, row, column, channel)]
    }

    /// Paints a level in a row, a column and a channel of a part: the level of the picture that the part shows there is
    /// changed, and no other. Takes no memory.
    pub fn paint(&mut self, part: &PyBuffer, row: usize, column: usize, channel: usize, level: u8)
        requires given { part.now < length self.old.parts }
        requires level { HasLevel (part_at self.old part.now) row column channel }
        ensures { self.new ≡ record self.old { levels = set self.old.levels (place (part_at self.old part.now) row column channel) level } }
    {
        let place = self.place_in(part, row, column, channel);
        self.state.bytes_mut()[place] = level;
    }
}
