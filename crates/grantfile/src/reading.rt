// Reading a whole file into rows.
ghost use Rattle.std.specs.Prelude.{length};
ghost use Rattle.grantfile.specs.Accepted.{Accepts};
ghost use Rattle.grantfile.specs.Reading.{ReadInto};

use super::fault::{Fault, Layer};
use super::file::HeadedFile;
use mesh::refusal::Refusal;
use mesh::row::Row;
use mesh::shape::Shape;
use mesh::weight::Weight;

// Fills the rows of the table from the file, and leaves those past it. Refused 1 to 10 by the first test that fails,
// of head, rows lent, contents, end and then bodies grant by grant, so accepted exactly if the file is well formed
// and there are rows enough; a refused read changes no row. One step for each device, row and grant.
pub fn read<W: Weight>(file: &[u8], rows: &mut [Row<W>]) -> Result<Shape, Fault>
    ensures cases { ReadInto W.Weight.meaning file.now rows.old rows.new result }
    ensures exactly { Accepts W.Weight.meaning (length rows.old) file.now result }
{
    let headed = HeadedFile::new(W::kind(), file)?;
    // The test stands here too, and not in a table of flow's: readers of files stand on no flow, and answer a fault.
    if rows.len() < headed.shape.rows() {
        return Err(Fault::of(Layer::Rows, Refusal::ShortMemory, 0));
    }
    let file = headed.checked()?;
    file.check::<W>()?;
    file.fill(rows);
    Ok(file.headed.shape)
}
