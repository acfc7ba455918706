//! Writes a field to a writer: of a text a row of cells at a time, of a picture its head and then a row of pixels
//! at a time. It stops at the first write that fails.
ghost use Rattle.std.specs.Prelude.{false, is_err, IfOk, OnOk, ◌≡◌, ◌+◌, ◌*◌, ◌/◌, ◌≤◌, ◌<◌, ◌++◌, [], length};
ghost use Rattle.std.specs.Io.KnownBytes.{Appends};
ghost use Rattle.arrayvec.specs.ArrayVec.{array_vec_len};
ghost use Rattle.load.specs.Load.{wide_of, high_of, stride_of};
ghost use Rattle.show.specs.Text.{row_text};
ghost use Rattle.show.specs.Picture.{row_pixels};
ghost use Rattle.show_field.specs.Output.{parts_of, picture_part, part_of, output};
ghost use Rattle.show_field.specs.Shown.{FieldOfFile};

use crate::Wanted;
use crate::view::View;
use arrayvec::ArrayVec;
use frame::Frame;
use show::Cells;
use std::io;
use std::io::Write;

// How many parts there are.
fn parts_of(wanted: Wanted, setup: &Frame) -> u32
    requires height { setup.now.height ≤ 2048 }
    ensures { result ≡ parts_of wanted setup.now }
{
    match wanted {
        // `as`: at most 256 rows of cells.
        Wanted::Text => checks::high_of(setup) as u32,
        Wanted::Picture => setup.height + 1,
    }
}

/// The receipt of what has been handed over of a field.
#[derive(Clone, Copy)]
pub struct Sent {
    /// How many parts.
    pub parts: u32,
    /// Whether the last write failed.
    pub failed: bool,
}

impl Sent {
    // Nothing yet.
    const NONE: Sent = Sent {
        parts: 0,
        failed: false,
    };
}

// That the buffer has room for a part is a clause of each function: it is lent, and of a fixed length (no heap). That the
// field is of a file is one, too, and no ghost field of `View`: it names a file, and a ghost field's fact has one proof at most.
impl<'f, 'c> View<'f, 'c> {
    // The lines of a row of cells.
    fn put_row_text<const N: usize>(&self, row: u32, out: &mut ArrayVec<u8, N>)
        requires row { row < high_of self.now.setup.now }
        requires room { array_vec_len out.old + 14592 ≤ N }
        ensures text { out.new.items ≡ out.old.items ++ row_text self.now.cells.y.now self.now.cells.x.now self.now.cells.reference.now (row * stride_of self.now.setup.now) row (wide_of self.now.setup.now) }
        ensures len { array_vec_len out.new ≤ array_vec_len out.old + 14592 }
    {
        // `as`: there is no `From` from u32 to usize; and at most 256 columns of cells.
        let base = row as usize * checks::stride_of(self.setup);
        let wide = checks::wide_of(self.setup) as u32;
        show::put_row_text(&self.cells, base, row, wide, out);
    }

    // A row of pixels; a cell is 8 pixels high.
    fn put_row_pixels<const N: usize>(&self, py: u32, out: &mut ArrayVec<u8, N>)
        requires row { py < self.now.setup.now.height }
        requires room { array_vec_len out.old + 14592 ≤ N }
        ensures text { out.new.items ≡ out.old.items ++ row_pixels self.now.cells.y.now self.now.cells.x.now (py / 8 * stride_of self.now.setup.now) py self.now.setup.now.width }
        ensures len { array_vec_len out.new ≤ array_vec_len out.old + 14592 }
    {
        // `as`: there is no `From` from u32 to usize.
        let base = (py / 8) as usize * checks::stride_of(self.setup);
        show::put_row_pixels(&self.cells, base, py, self.setup.width, out);
    }

    // Part k of a picture. The head is part 0, and not written apart: one loop then writes both forms, and ends at the first write that fails.
    fn put_picture_part<const N: usize>(&self, k: u32, out: &mut ArrayVec<u8, N>)
        requires part { k ≤ self.now.setup.now.height }
        requires room { array_vec_len out.old + 14592 ≤ N }
        ensures text { out.new.items ≡ out.old.items ++ picture_part self.now.setup.now self.now.cells.y.now self.now.cells.x.now k }
        ensures len { array_vec_len out.new ≤ array_vec_len out.old + 14592 }
    {
        if k == 0 {
            show::put_head(self.setup.width, self.setup.height, out)
        } else {
            self.put_row_pixels(k - 1, out)
        }
    }

    // Part k.
    fn put_part<const N: usize>(&self, k: u32, out: &mut ArrayVec<u8, N>)
        requires part { k < parts_of self.now.wanted self.now.setup.now }
        requires room { array_vec_len out.old + 14592 ≤ N }
        ensures text { out.new.items ≡ out.old.items ++ part_of self.now.wanted self.now.setup.now self.now.cells.y.now self.now.cells.x.now self.now.cells.reference.now k }
        ensures len { array_vec_len out.new ≤ array_vec_len out.old + 14592 }
    {
        match self.wanted {
            Wanted::Text => self.put_row_text(k, out),
            Wanted::Picture => self.put_picture_part(k, out),
        }
    }

    // The part that comes next is handed over, and counted whether or not the write fails. After a write that has failed none comes next.
    fn write_part<W: Write, const N: usize>(
        &self,
        to: &mut W,
        sent: &mut Sent,
        out: &mut ArrayVec<u8, N>,
    ) -> io::Result<()>
        requires of_file { FieldOfFile self.now.setup.now self.now.cells.y.now self.now.cells.x.now self.now.cells.reference.now }
        requires part { sent.old.parts < parts_of self.now.wanted self.now.setup.now }
        requires none_failed { sent.old.failed ≡ false }
        requires room { 14592 ≤ N }
        ensures counted { sent.new.parts ≡ sent.old.parts + 1 }
        ensures failed { sent.new.failed ≡ is_err result }
        ensures handed { out.new.items ≡ part_of self.now.wanted self.now.setup.now self.now.cells.y.now self.now.cells.x.now self.now.cells.reference.now sent.old.parts }
        ensures written { OnOk result (Appends (W.contents to.old) (W.contents to.new) (part_of self.now.wanted self.now.setup.now self.now.cells.y.now self.now.cells.x.now self.now.cells.reference.now sent.old.parts)) }
    {
        out.clear();
        self.put_part(sent.parts, out);
        let written = text::write_out(to, out.as_slice());
        sent.parts += 1;
        sent.failed = written.is_err();
        written
    }

    // Writes all parts, and answers how many they are.
    fn write<W: Write>(&self, to: &mut W) -> io::Result<u32>
        requires of_file { FieldOfFile self.now.setup.now self.now.cells.y.now self.now.cells.x.now self.now.cells.reference.now }
        ensures all { IfOk result (λ parts. parts ≡ parts_of self.now.wanted self.now.setup.now) }
        ensures written { OnOk result (Appends (W.contents to.old) (W.contents to.new) (output self.now.wanted self.now.setup.now self.now.cells.y.now self.now.cells.x.now self.now.cells.reference.now)) }
    {
        // 256 lines of at most 57 bytes; a row of 2,048 pixels has 6,144.
        let mut out = ArrayVec::<u8, 14592>::new();
        let mut sent = Sent::NONE;
        for _ in 0..parts_of(self.wanted, self.setup) {
            self.write_part(to, &mut sent, &mut out)?;
        }
        Ok(sent.parts)
    }
}

/// Writes the field of a frame of at most 2,048 x 2,048 pixels, and answers how many parts that were.
pub fn write_field<W: Write>(
    to: &mut W,
    wanted: Wanted,
    setup: &Frame,
    cells: Cells<'_>,
) -> io::Result<u32>
    requires of_file { FieldOfFile setup.now cells.y.now cells.x.now cells.reference.now }
    requires width { setup.now.width ≤ 2048 }
    requires height { setup.now.height ≤ 2048 }
    requires y { 65536 ≤ length cells.y.now }
    requires x { 65536 ≤ length cells.x.now }
    requires reference { 65536 ≤ length cells.reference.now }
    ensures all { IfOk result (λ parts. parts ≡ parts_of wanted setup.now) }
    ensures written { OnOk result (Appends (W.contents to.old) (W.contents to.new) (output wanted setup.now cells.entry.y.now cells.entry.x.now cells.entry.reference.now)) }
{
    let view = View {
        wanted,
        setup,
        cells,
    };
    view.write(to)
}
