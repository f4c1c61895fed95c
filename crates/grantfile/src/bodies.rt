// The grants of a body, one by one.
ghost use Rattle.std.specs.Prelude.{◌≡◌, ◌+◌, ◌*◌, ◌≤◌, length};
ghost use Rattle.grantfile.specs.Format.{points_of};

use super::fault::{Fault, Layer};
use mesh::refusal::Refusal;
use mesh::right::Right;
use mesh::row::Row;
use mesh::weight::Weight;

// The grants of one body: the file and the points of its table, where the body starts, and how many grants it has. It holds no
// part of the file, as `Body` does, since what is tested, and the place of a fault, is told by places in the file.
#[derive(Clone, Copy)]
pub(super) struct Grants<'a> {
    pub(super) file: &'a [u8],
    pub(super) points: usize,
    pub(super) start: usize,
    pub(super) count: usize,
    ghost named: { points ≡ points_of file.now },
    ghost within: { start + 6 * count ≤ length file.now },
}

impl<'a> Grants<'a> {
    ghost use Rattle.std.specs.Prelude.{◌<◌, IfOk, None, drop, not, take};
    ghost use Rattle.std.specs.Result.{result_err};
    ghost use Rattle.grantfile.specs.Format.{point_at};
    ghost use Rattle.grantfile.specs.Inner.{BodyFilled, GrantRow, grants_tests};
    ghost use Rattle.grantfile.specs.Tests.{first, grant_tests, out_of_order};

    // The bytes of the body. Constant time.
    pub(super) fn bytes(&self) -> &'a [u8]
        ensures value { result.now ≡ take (6 * self.now.count) (drop self.now.start self.now.file.now) }
    {
        &self.file[self.start..self.start + 6 * self.count]
    }

    // Whether the point of the grant `j` is in the table, and above that of the grant before it. Constant time.
    fn in_order(&self, j: usize) -> bool
        requires { j < self.now.count }
        ensures value { not result ≡ out_of_order self.now.file.now self.now.start j }
    {
        let place = self.start + 6 * j;
        let point = self.file[place];
        usize::from(point) < self.points && (j == 0 || self.file[place - 6] < point)
    }

    // The point and the row of the grant `j`; refused 8, 9 or 10, in this order. Constant time.
    fn grant<W: Weight>(&self, j: usize) -> Result<(u8, Row<W>), Fault>
        requires { j < self.now.count }
        ensures cases { first (grant_tests W.Weight.meaning self.now.file.now self.now.start j) ≡ result_err result }
        ensures point { IfOk result (λ grant. grant.0 ≡ point_at self.now.file.now (self.now.start + 6 * j)) }
        ensures row { IfOk result (λ grant. GrantRow W.Weight.meaning self.now.file.now (self.now.start + 6 * j) grant.1) }
    {
        let place = self.start + 6 * j;
        let [point, letter, a, b, c, d] = *self.file[place..].first_chunk::<6>().unwrap();
        if !self.in_order(j) {
            return Err(Fault::of(Layer::Body, Refusal::OutsideTable, place));
        }
        let right = Right::try_from(letter).map_err(|why| Fault::of(Layer::Body, why, place + 1))?;
        let weight = W::make(u32::from_be_bytes([a, b, c, d])).map_err(|why| Fault::of(
            Layer::Weight,
            why,
            place + 2,
        ))?;
        Ok((point, Row::grant(right, weight)))
    }

    // Checks the grants, each by 8, 9 and 10 before the next. One step for each grant.
    pub(super) fn check<W: Weight>(&self) -> Result<(), Fault>
        ensures cases { first (grants_tests W.Weight.meaning self.now) ≡ result_err result }
    {
        // By number, since a grant is tested against the one before it.
        for j in 0..self.count {
            self.grant::<W>(j)?;
        }
        Ok(())
    }

    // Makes the rows of the body's device empty, and then writes each grant, all of which pass, whole into its row. One
    // step for each row and grant.
    pub(super) fn fill<W: Weight>(&self, rows: &mut [Row<W>])
        requires points { length rows.old ≡ points_of self.now.file.now }
        requires passed { first (grants_tests W.Weight.meaning self.now) ≡ None }
        ensures after { BodyFilled W.Weight.meaning self.now.file.now self.now.start self.now.count rows.new }
    {
        // Not by `fill`, which asks that a clone of W cannot fail.
        let empty = Row::empty();
        rows.fill_with(|| empty);
        // By number, as `grant` reads a grant.
        for number in 0..self.count {
            let (point, row) = self.grant(number).unwrap();
            rows[usize::from(point)] = row;
        }
    }
}
