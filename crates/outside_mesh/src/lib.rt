// A mesh written outside the module: a fan of triangles around one point. It shows that the interface can be
// met from elsewhere, and that what is written for every mesh then works over it.
#![tactic(auto)]

#[cfg(test)]
mod tests;

ghost use Rattle.std.specs.Prelude.{◌≡◌, ◌≤◌, min};
ghost use Rattle.outside_mesh.specs.Fan.{fan};
ghost use Rattle.outside_mesh.specs.FanRules.{fan_lawful};

use mesh::{Mesh, Point, triangle_of};

// The most blades of a fan.
const BLADE_LIMIT: u32 = 100;

#[derive(Clone, Copy, Drop)]
pub struct Fan {
    blades: u32,
    ghost few: { blades ≤ 100 },
}

impl Fan {
    // A fan of so many blades, or of a hundred where that is too many.
    pub fn new(blades: u32) -> Fan
        ensures { fan result.blades ≡ fan (min blades 100) }
    {
        Fan {
            blades: blades.min(BLADE_LIMIT),
        }
    }
}

impl Mesh for Fan {
    ghost meaning = { λ s. fan s.blades };

    ghost lawful = { λ s. fan_lawful s.blades s.few };

    fn triangles(&self) -> u32 {
        self.blades
    }

    fn points(&self) -> u32 {
        self.blades + 2
    }

    fn present(&self, t: u32) -> bool {
        t < self.blades
    }

    fn start(&self, h: u32) -> u32 {
        let t = triangle_of(h);
        if !self.present(t) {
            return 0;
        }
        // By the number of the side, as the rules count.
        match h % 3 {
            0 => 0,
            side => t + side,
        }
    }

    fn place(&self, p: u32) -> Point {
        if (1..self.points()).contains(&p) {
            Point {
                x: (50 * p) as i32,
                y: 300,
                z: 0,
            }
        } else {
            Point::default()
        }
    }

    fn twin(&self, h: u32) -> Option<u32> {
        let t = triangle_of(h);
        if !self.present(t) {
            return None;
        }
        // By the number of the side, as the rules count.
        match h % 3 {
            0 => h.checked_sub(1),
            1 => None,
            _ => self.present(t + 1).then_some(h + 1),
        }
    }
}
