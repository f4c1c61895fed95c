// A table over lent rows, all of which are there.
ghost use Rattle.std.specs.Prelude.{◌≤◌, length};
ghost use Rattle.mesh.specs.Table.{rows_of};

use super::sets::sets_where;
use super::touched::Touched;
use mesh::refusal::Refusal;
use mesh::row::Row;
use mesh::shape::Shape;

// The size of the table, and the rows lent for it: as many as it has, or more. Public calls keep the two apart, as callers
// have them: which rows are enough is for the call to say. It is not `Copy`, which cannot be derived over a ghost field here.
#[derive(Drop)]
pub(crate) struct Table<'a, W> {
    pub(crate) shape: Shape,
    pub(crate) rows: &'a [Row<W>],
    ghost lent: { rows_of shape ≤ length rows.now },
}

impl<'a, W> Table<'a, W> {
    ghost use Rattle.std.specs.Prelude.{◌≡◌};
    ghost use Rattle.flow.specs.Tables.{TableOver, table_rights};
    ghost use Rattle.flow.specs.Touched.{Touches, TouchesAt};

    // The table over the rows; refused 4 where they are too few.
    pub(crate) fn over(shape: Shape, rows: &'a [Row<W>]) -> Result<Table<'a, W>, Refusal>
        ensures cases { TableOver shape rows.now result }
    {
        if rows.len() < shape.rows() {
            return Err(Refusal::ShortMemory);
        }
        Ok(Table { shape, rows })
    }

    // What a device touches by the grants that stand in its part of the rows: no points where the table has no such device.
    pub(crate) fn touched(&self, device: usize) -> Touched
        ensures value { TouchesAt (table_rights self.now) device result }
    {
        if device >= self.shape.devices() {
            return Touched {
                reads: 0,
                writes: 0,
            };
        }
        let points = self.shape.points();
        let first = device * points;
        let rows = &self.rows[first..first + points];
        let (reads, writes) = sets_where(
            points,
            |p| rows[p].right.can_read(),
            |p| rows[p].right.can_write(),
        );
        Touched { reads, writes }
    }

    // What each device touches; no points past the table's devices. One pass over the rows, by a loop, as `follower_words` goes.
    pub(crate) fn each_touched(&self) -> [Touched; 64]
        ensures value { Touches (table_rights self.now) result }
    {
        let mut touched = [Touched {
            reads: 0,
            writes: 0,
        }; 64];
        for device in 0..self.shape.devices() {
            touched[device] = self.touched(device);
        }
        touched
    }
}
