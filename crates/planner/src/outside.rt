// The nodes in rising order: each, or those that are not in a set.
ghost use Rattle.std.specs.Prelude.{◌≡◌, cond, ◌+◌, ◌-◌, ◌<◌, ltb};
ghost use Rattle.shape.specs.Shape.{shape_error};
ghost use Rattle.planner.specs.Outside.{Stands, Following, NextOutside};

use rows::next::next_set;
use shape::Shape;

// A node with its coordinates, or the place behind the last node of a row; behind the last node of all the node count, at (0, 0, extent of Z).
#[derive(Clone, Copy)]
pub struct At {
    pub node: u16,
    pub x: u8,
    pub y: u8,
    pub z: u8,
}

// The bits that a row does not have.
pub fn others(row: u16) -> u16
    ensures { (result ≡ 65535 - row) × (row < 65536) }
{
    65535 - row
}

// The row behind (y, z).
fn next_y(y: u8, rows: u8) -> u8
    requires { y < 16 }
    ensures { result ≡ cond (ltb (y + 1) rows) (y + 1) 0 }
{
    if y + 1 < rows { y + 1 } else { 0 }
}

fn next_z(y: u8, rows: u8, z: u8) -> u8
    requires { (y < 16) × (z < 16) }
    ensures { result ≡ cond (ltb (y + 1) rows) z (z + 1) }
{
    if y + 1 < rows { z } else { z + 1 }
}

// The next node; behind the last one where there is none.
pub fn following(shape: Shape, at: At) -> At
    requires shape_value { shape_error shape ≡ 0 }
    requires stands { Stands shape at }
    requires x_lt_x { (at.x < shape.x) × (at.z < shape.z) }
    ensures { Following shape at result }
{
    if at.x + 1 < shape.x {
        return At {
            node: at.node + 1,
            x: at.x + 1,
            y: at.y,
            z: at.z,
        };
    }
    At {
        node: at.node + 1,
        x: 0,
        y: next_y(at.y, shape.y),
        z: next_z(at.y, shape.y, at.z),
    }
}

// The first node from `at` on that is not in the set; behind the last one where there is none: a place and no `None`, since a search goes on from any place.
pub fn next_outside(shape: Shape, rows: &[u16; 256], at: At) -> At
    requires shape_value { shape_error shape ≡ 0 }
    requires stands { Stands shape at }
    ensures { NextOutside shape rows.now at result }
{
    let node = at.node;
    let mut x = at.x;
    let mut y = at.y;
    let mut z = at.z;
    let mut first = node - x as u16;
    // By rows and no `for`: y and z go on together, and x begins anew.
    while z < shape.z {
        let r = 16 * z as usize + y as usize;
        let found = next_set(others(rows[r]), x);
        if found < shape.x {
            return At {
                node: first + found as u16,
                x: found,
                y: y,
                z: z,
            };
        }
        first = first + shape.x as u16;
        z = next_z(y, shape.y, z);
        y = next_y(y, shape.y);
        x = 0;
    }
    At {
        node: first,
        x: 0,
        y: 0,
        z: z,
    }
}
