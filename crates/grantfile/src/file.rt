// A file whose head passes, the same file once its contents and end pass too, and the bodies in it.
ghost use Rattle.std.specs.Prelude.{◌≡◌, ◌≤◌, None, length};
ghost use Rattle.grantfile.specs.Format.{ShapeOf, devices_of, entry_at};
ghost use Rattle.grantfile.specs.Tests.{contents_tests, first};

use super::bodies::Grants;
use super::entries::entry;
use super::fault::{Fault, Layer};
use super::heading::head;
use mesh::refusal::Refusal;
use mesh::row::Row;
use mesh::shape::Shape;
use mesh::weight::Weight;

// The bytes of a file whose head passes, and the shape that it names. Only `new` makes one.
#[derive(Clone, Copy)]
pub(super) struct HeadedFile<'a> {
    bytes: &'a [u8],
    pub(super) shape: Shape,
    pub ghost named: { ShapeOf bytes.now shape },
}

// A file whose head passes, and its contents and end too. Only `HeadedFile::checked` makes one.
#[derive(Clone, Copy)]
pub struct GrantFile<'a> {
    pub(super) headed: HeadedFile<'a>,
    pub ghost sound: { first (contents_tests headed.bytes.now) ≡ None },
}

// A device's body as a part of its file, and the place in the file at which it starts.
#[derive(Clone, Copy)]
pub struct Body<'a> {
    pub bytes: &'a [u8],
    pub place: usize,
}

impl<'a> HeadedFile<'a> {
    ghost use Rattle.std.specs.Prelude.{IfOk};
    ghost use Rattle.std.specs.Result.{result_err};
    ghost use Rattle.grantfile.specs.Format.{body_at};
    ghost use Rattle.grantfile.specs.Tests.{entries_tests, head_tests};

    // The file in the bytes, its kind to be `kind`; refused 1, 2 or 3, in this order. Constant time.
    pub(super) fn new(kind: u8, bytes: &'a [u8]) -> Result<HeadedFile<'a>, Fault>
        ensures cases { first (head_tests kind bytes.now) ≡ result_err result }
        ensures bytes { IfOk result (λ file. file.bytes.now ≡ bytes.now) }
    {
        let shape = head(kind, bytes)?;
        Ok(HeadedFile { bytes, shape })
    }

    // The end of the last body, where each entry starts where the body before it ends; else refused 6 at the first
    // entry that does not. One step for each device.
    fn end(&self) -> Result<usize, Fault>
        requires { entry_at (devices_of self.now.bytes.now) ≤ length self.now.bytes.now }
        ensures cases { first (entries_tests self.now.bytes.now) ≡ result_err result }
        ensures end { IfOk result (λ end. end ≡ body_at self.now.bytes.now (devices_of self.now.bytes.now)) }
    {
        let mut end = 4 + 3 * self.shape.devices();
        let (entries, _) = self.bytes[4..end].as_chunks::<3>();
        for (device, bytes) in entries.iter().enumerate() {
            let (start, count, _) = entry(bytes);
            if usize::from(start) != end {
                return Err(Fault::of(Layer::Contents, Refusal::WrongStart, 4 + 3 * device));
            }
            end += 6 * usize::from(count);
        }
        Ok(end)
    }

    // The file once its contents are found whole (else refused 5), each entry to start where the body before it ends
    // (6), and the last body to end with the file (7), in this order. One step for each device.
    pub(super) fn checked(self) -> Result<GrantFile<'a>, Fault>
        ensures cases { first (contents_tests self.entry.bytes.now) ≡ result_err result }
        ensures bytes { IfOk result (λ file. file.headed.bytes.now ≡ self.entry.bytes.now) }
    {
        let len = self.bytes.len();
        if len < 4 + 3 * self.shape.devices() {
            return Err(Fault::of(Layer::Contents, Refusal::ShortContents, len));
        }
        let end = self.end()?;
        if len != end {
            return Err(Fault::of(Layer::Contents, Refusal::WrongEnd, len.min(end)));
        }
        Ok(GrantFile { headed: self })
    }
}

impl<'a> GrantFile<'a> {
    ghost use Rattle.std.specs.Prelude.{◌<◌, drop};
    ghost use Rattle.std.specs.Result.{result_err};
    ghost use Rattle.mesh.specs.Table.{rows_of};
    ghost use Rattle.grantfile.specs.Format.{body_at, count_of};
    ghost use Rattle.grantfile.specs.Reading.{Filled, Opened, Shown};
    ghost use Rattle.grantfile.specs.Tests.{bodies_tests};

    // The file in the bytes, its kind to be `kind`, a number as the trait `Weight` has it; refused 1, 2, 3, 5, 6 or 7, in this
    // order, as the head, the contents and the end are checked. One step for each device.
    pub fn open(kind: u8, bytes: &'a [u8]) -> Result<GrantFile<'a>, Fault>
        ensures cases { Opened kind bytes.now result }
    {
        HeadedFile::new(kind, bytes)?.checked()
    }

    // The grants of a device in the table. Constant time.
    pub(super) fn grants(&self, device: usize) -> Grants<'a>
        requires { device < devices_of self.now.headed.bytes.now }
        ensures file { result.file.now ≡ self.now.headed.bytes.now }
        ensures start { result.start ≡ body_at self.now.headed.bytes.now device }
        ensures count { result.count ≡ count_of self.now.headed.bytes.now device }
    {
        let (start, count, _) = entry(&self.headed.bytes[4 + 3 * device..]);
        Grants {
            file: self.headed.bytes,
            points: self.headed.shape.points(),
            start: usize::from(start),
            count: usize::from(count),
        }
    }

    // The body of a device, as a part of the file; outside the table refused 8 at place 0. Constant time.
    pub fn body(&self, device: u8) -> Result<Body<'a>, Fault>
        ensures cases { Shown self.now.headed.bytes.now device result }
    {
        let device = usize::from(device);
        if device >= self.headed.shape.devices() {
            return Err(Fault::of(Layer::Body, Refusal::OutsideTable, 0));
        }
        let grants = self.grants(device);
        Ok(Body {
            bytes: grants.bytes(),
            place: grants.start,
        })
    }

    // Checks the bodies, device by device; refused 8, 9 or 10 at the first grant that does not pass. One step for each
    // device and grant.
    pub(super) fn check<W: Weight>(&self) -> Result<(), Fault>
        ensures cases { first (bodies_tests W.Weight.meaning self.now.headed.bytes.now) ≡ result_err result }
    {
        for device in 0..self.headed.shape.devices() {
            self.grants(device).check::<W>()?;
        }
        Ok(())
    }

    // Fills the rows of the table, device by device, where the bodies pass, and leaves the rows past the table. One
    // step for each row and grant.
    pub(super) fn fill<W: Weight>(&self, rows: &mut [Row<W>])
        requires lent { rows_of self.now.headed.shape ≤ length rows.old }
        requires passed { first (bodies_tests W.Weight.meaning self.now.headed.bytes.now) ≡ None }
        ensures table { Filled W.Weight.meaning self.now.headed.shape self.now.headed.bytes.now rows.new }
        ensures beyond { drop (rows_of self.now.headed.shape) rows.new ≡ drop (rows_of self.now.headed.shape) rows.old }
    {
        let points = self.headed.shape.points();
        // By index: once a loop over chunks_exact_mut has ended, a proof knows only how many rows there are.
        for device in 0..self.headed.shape.devices() {
            let at = device * points;
            self.grants(device).fill(&mut rows[at..at + points]);
        }
    }
}
