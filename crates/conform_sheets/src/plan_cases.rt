// The operations `plan`, `weights`, `planback` and `planwrite`: a plan sheet is read, or its weights alone, it is written back, or written from a plan's value. Lent output is filled with EE.
use crate::faults::{put_faults, with_faults};
use conform_fields::answers::{number_of, put_number, put_written};
use conform_fields::shapes::{put_shape, put_three, read_shape, read_three};
use conform_fields::sheets::{PLAN_BYTES, read_plan, read_room};
use plan::{Fault, weights_of, write_back};
use plan_value::{Plan, read, write};
use text::writer::Writer;
use text::{decimal, field};
use weights::Weights;

// Writes the answer to a line `plan plan=..`.
pub fn answer_read(line: &[u8], writer: &mut Writer) -> Option<()> {
    let mut bytes = [0u8; PLAN_BYTES];
    let reading = read(read_plan(line, &mut bytes)?);
    put_number(writer, number_of(&reading));
    if let Ok(plan) = reading {
        put_shape(writer, plan.shape);
        put_faults(writer, &plan);
    }
    Some(())
}

// Writes the answer to a line `weights plan=..`.
pub fn answer_weights(line: &[u8], writer: &mut Writer) -> Option<()> {
    let mut bytes = [0u8; PLAN_BYTES];
    let weights = weights_of(read_plan(line, &mut bytes)?);
    put_three(writer, b"weights=", [weights.x, weights.y, weights.z]);
    Some(())
}

// Writes the answer to a line `planback plan=.. room=..`.
pub fn answer_back(line: &[u8], writer: &mut Writer) -> Option<()> {
    let mut bytes = [0u8; PLAN_BYTES];
    let mut output = [0xEEu8; PLAN_BYTES];
    let plan = read_plan(line, &mut bytes)?;
    let lent = read_room(line, &mut output)?;
    let written = write_back(plan, lent);
    put_written(writer, written, lent);
    Some(())
}

// Reads the fields `version=`, `extents=`, `wrap=`, `weights=` and `faults=`.
fn read_value(line: &[u8]) -> Option<Plan> {
    let version = decimal::read_as(field::value(line, b"version="))?;
    let shape = read_shape(line)?;
    let [x, y, z] = read_three(field::value(line, b"weights="))?;
    let bare = Plan {
        version,
        shape,
        weights: Weights { x, y, z },
        count: 0,
        faults: [Fault { node: 0, kind: 0 }; 256],
    };
    with_faults(bare, field::value(line, b"faults="))
}

// Writes the answer to a line `planwrite version=.. extents=.. wrap=.. weights=.. faults=.. room=..`.
pub fn answer_write(line: &[u8], writer: &mut Writer) -> Option<()> {
    let mut output = [0xEEu8; PLAN_BYTES];
    let plan = read_value(line)?;
    let lent = read_room(line, &mut output)?;
    let written = write(plan, lent);
    put_written(writer, written, lent);
    Some(())
}
