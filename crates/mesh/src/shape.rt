// The size of a table, 1 to 64 devices by 1 to 64 points, and where the row of a device and a point lies.
ghost use Rattle.std.specs.Prelude.{◌≡◌, ◌<◌, ◌≤◌};

use super::refusal::Refusal;

#[derive(Clone, Copy, Debug)]
pub struct Shape {
    devices: u8,
    points: u8,
    ghost in_range: { (0 < devices) × (devices ≤ 64) × (0 < points) × (points ≤ 64) },
}

impl Shape {
    ghost use Rattle.mesh.specs.Table.{PlacedRow, Shaped, rows_of};

    // The shape of so many devices and points; refused 3 unless both are 1 to 64. Constant time.
    pub fn new(devices: u8, points: u8) -> Result<Shape, Refusal>
        ensures cases { Shaped devices points result }
    {
        match (devices, points) {
            (1..=64, 1..=64) => Ok(Shape { devices, points }),
            _ => Err(Refusal::WrongSize),
        }
    }

    // How many devices the table has. Constant time.
    pub fn devices(self) -> usize
        ensures value { result ≡ self.devices }
    {
        usize::from(self.devices)
    }

    // How many points the table has. Constant time.
    pub fn points(self) -> usize
        ensures value { result ≡ self.points }
    {
        usize::from(self.points)
    }

    // How many rows the table needs. Constant time.
    pub fn rows(self) -> usize
        ensures value { result ≡ rows_of self }
    {
        self.devices() * self.points()
    }

    // The number of the row of a device and a point; refused 8 outside the table. Constant time. The two come as bytes and in no
    // type of their own: any two may be asked for, so there is no fact for a type to keep.
    pub fn row(self, device: u8, point: u8) -> Result<usize, Refusal>
        ensures cases { PlacedRow self device point result }
    {
        if device >= self.devices || point >= self.points {
            return Err(Refusal::OutsideTable);
        }
        Ok(usize::from(device) * self.points() + usize::from(point))
    }
}
