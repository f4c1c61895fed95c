// The first four bytes of a file.
ghost use Rattle.grantfile.specs.Reading.{Headed};

use super::fault::{Fault, Layer};
use mesh::refusal::Refusal;
use mesh::shape::Shape;

// The shape of the table in the file, whose kind is to be `kind`; refused 1, 2 or 3, in this order, by the
// head's layer. Constant time. The kind is a number, as the trait `Weight` has it.
pub fn head(kind: u8, file: &[u8]) -> Result<Shape, Fault>
    ensures cases { Headed kind file.now result }
{
    match file {
        [magic, found, devices, points, _rest @ ..] if *magic == 0x47 => {
            if *found != kind {
                return Err(Fault::of(Layer::Head, Refusal::WrongHead, 1));
            }
            Shape::new(*devices, *points).map_err(|why| {
                let place = if matches!(devices, 1..=64) { 3 } else { 2 };
                Fault::of(Layer::Head, why, place)
            })
        }
        [_, _, _, _, ..] => Err(Fault::of(Layer::Head, Refusal::WrongHead, 0)),
        _ => Err(Fault::of(Layer::Head, Refusal::ShortFile, file.len())),
    }
}
