// The values that cross, each a struct of numbers as library/nafthurm.h has it, and the calls' own values as such.
ghost use Rattle.std.specs.Prelude.{◌≡◌};
ghost use Rattle.nafthurm.specs.Forms.{mode_of, packet_for, stepped_for, ending_for, walked_for, run_refusal_for, length_for, outcome_in, packet_in};

use all_sheets::{Run, RunRefusal};
use choice::Outcome;
use conversion::Converted;
use machine::leg::{Leg, Mode};
use numbers::Refusal;
use packet::{Ending, MOST_LEGS, Packet, Stepped, Walked};
use routes::Entry;
use routes::kinds::{entry_for, outcome_by};
use shape::Shape;
use sheet::output::{number, size};
use weights::Weights;

#[repr(C)]
#[derive(Clone, Copy)]
pub struct ShapeForm {
    pub x: u8,
    pub y: u8,
    pub z: u8,
    pub wrap: u8,
}

#[repr(C)]
#[derive(Clone, Copy)]
pub struct WeightsForm {
    pub x: u8,
    pub y: u8,
    pub z: u8,
}

#[repr(C)]
#[derive(Clone, Copy)]
pub struct LegForm {
    pub target: u16,
    pub mode: u8,
}

#[repr(C)]
#[derive(Clone, Copy)]
pub struct PacketForm {
    pub source: u16,
    pub node: u16,
    pub legs: [LegForm; MOST_LEGS],
    pub count: u8,
    pub mark: u8,
}

#[repr(C)]
#[derive(Clone, Copy)]
pub struct SteppedForm {
    pub packet: PacketForm,
    pub number: u8,
}

#[repr(C)]
#[derive(Clone, Copy)]
pub struct WalkedForm {
    pub packet: PacketForm,
    pub number: u8,
    pub ending: u8,
    pub hops: usize,
}

#[repr(C)]
#[derive(Clone, Copy)]
pub struct WrittenForm {
    pub number: u8,
    pub size: usize,
}

#[repr(C)]
#[derive(Clone, Copy)]
pub struct ConvertedForm {
    pub number: u8,
    pub entry: u16,
    pub size: usize,
}

#[repr(C)]
#[derive(Clone, Copy)]
pub struct RunForm {
    pub number: u8,
    pub next: u16,
    pub size: usize,
}

#[repr(C)]
#[derive(Clone, Copy)]
pub struct PartForm {
    pub start: usize,
    pub size: usize,
}

#[repr(C)]
#[derive(Clone, Copy)]
pub struct RouteForm {
    pub number: u8,
    pub kind: u8,
    pub via: [u16; 2],
}

#[repr(C)]
#[derive(Clone, Copy)]
pub struct PlannedForm {
    pub route: RouteForm,
    pub length: u16,
}

impl From<ShapeForm> for Shape {
    ghost use Rattle.nafthurm.specs.Forms.{shape_of};

    ghost from_gives = { λ form made. made ≡ shape_of form };

    fn from(form: ShapeForm) -> Shape {
        Shape {
            x: form.x,
            y: form.y,
            z: form.z,
            wrap: form.wrap,
        }
    }
}

impl From<Shape> for ShapeForm {
    ghost use Rattle.nafthurm.specs.Forms.{shape_for};

    ghost from_gives = { λ shape made. made ≡ shape_for shape };

    fn from(shape: Shape) -> ShapeForm {
        ShapeForm {
            x: shape.x,
            y: shape.y,
            z: shape.z,
            wrap: shape.wrap,
        }
    }
}

impl From<Weights> for WeightsForm {
    ghost use Rattle.nafthurm.specs.Forms.{weights_for};

    ghost from_gives = { λ weights made. made ≡ weights_for weights };

    fn from(weights: Weights) -> WeightsForm {
        WeightsForm {
            x: weights.x,
            y: weights.y,
            z: weights.z,
        }
    }
}

// A byte in C, and every byte is a mode (`nafthurm_step`).
fn mode_of(mode: u8) -> Mode
    ensures { result ≡ mode_of mode }
{
    match mode {
        0 => Mode::Adaptive,
        _ => Mode::Deterministic,
    }
}

impl From<LegForm> for Leg {
    ghost use Rattle.nafthurm.specs.Forms.{leg_of};

    ghost from_gives = { λ form made. made ≡ leg_of form };

    fn from(form: LegForm) -> Leg {
        Leg {
            target: form.target,
            mode: mode_of(form.mode),
        }
    }
}

impl From<Leg> for LegForm {
    ghost use Rattle.nafthurm.specs.Forms.{leg_for};

    ghost from_gives = { λ leg made. made ≡ leg_for leg };

    fn from(leg: Leg) -> LegForm {
        LegForm {
            target: leg.target,
            mode: leg.mode as u8,
        }
    }
}

impl From<PacketForm> for Packet {
    ghost use Rattle.nafthurm.specs.Forms.{packet_of};

    ghost from_gives = { λ form made. made ≡ packet_of form };

    fn from(form: PacketForm) -> Packet {
        let [first, second, third] = form.legs;
        Packet::with(
            form.source,
            form.node,
            [first.into(), second.into(), third.into()],
            form.count,
            form.mark,
        )
    }
}

// A packet that was made here, and not lent.
impl From<Packet> for PacketForm {
    ghost use Rattle.nafthurm.specs.Forms.{made_for};

    ghost from_gives = { λ packet made. made ≡ made_for packet };

    fn from(packet: Packet) -> PacketForm {
        let [first, second, third] = packet.legs;
        PacketForm {
            source: packet.source,
            node: packet.node,
            legs: [first.into(), second.into(), third.into()],
            count: packet.count,
            mark: packet.mark,
        }
    }
}

// A packet that was lent, after a call: the source, the legs and the count stay as lent.
fn packet_for(lent: PacketForm, packet: Packet) -> PacketForm
    ensures { result ≡ packet_for lent packet }
{
    PacketForm {
        node: packet.node,
        mark: packet.mark,
        ..lent
    }
}

pub fn stepped_for(lent: PacketForm, stepped: Stepped) -> SteppedForm
    ensures { result ≡ stepped_for lent stepped }
{
    let Stepped { packet, answer } = stepped;
    SteppedForm {
        packet: packet_for(lent, packet),
        number: number(answer),
    }
}

fn ending_for(ending: Ending) -> u8
    ensures { result ≡ ending_for ending }
{
    match ending {
        Ending::Arrived => 0,
        Ending::NotAllowed => 1,
        Ending::UsedUp => 2,
        Ending::Refused(_) => 3,
    }
}

pub fn walked_for(lent: PacketForm, walked: Walked) -> WalkedForm
    ensures { result ≡ walked_for lent walked }
{
    let Walked {
        packet,
        hops,
        ending,
    } = walked;
    WalkedForm {
        packet: packet_for(lent, packet),
        number: ending.number(),
        ending: ending_for(ending),
        hops,
    }
}

impl From<Result<usize, Refusal>> for WrittenForm {
    ghost use Rattle.nafthurm.specs.Forms.{written_for};

    ghost from_gives = { λ written made. made ≡ written_for written };

    fn from(written: Result<usize, Refusal>) -> WrittenForm {
        WrittenForm {
            number: number(written),
            size: size(written),
        }
    }
}

impl From<Converted> for ConvertedForm {
    ghost use Rattle.nafthurm.specs.Forms.{converted_for};

    ghost from_gives = { λ converted made. made ≡ converted_for converted.written converted.entry };

    fn from(converted: Converted) -> ConvertedForm {
        let Converted { written, entry } = converted;
        ConvertedForm {
            number: number(written),
            entry,
            size: size(written),
        }
    }
}

// No number of a refusal: the lent workspace is too small.
const FEW_WORDS: u8 = 255;

fn run_refusal_for(refusal: RunRefusal) -> u8
    ensures { result ≡ run_refusal_for refusal }
{
    match refusal {
        RunRefusal::Refused(refusal) => refusal.number(),
        RunRefusal::FewWords => FEW_WORDS,
    }
}

impl From<Result<Run, RunRefusal>> for RunForm {
    ghost use Rattle.nafthurm.specs.Forms.{run_for};

    ghost from_gives = { λ answer made. made ≡ run_for answer };

    fn from(answer: Result<Run, RunRefusal>) -> RunForm {
        match answer {
            Ok(run) => RunForm {
                number: 0,
                next: run.next,
                size: run.size,
            },
            Err(refusal) => RunForm {
                number: run_refusal_for(refusal),
                next: 0,
                size: 0,
            },
        }
    }
}

// The kind and the vias as in the entry of a sheet.
impl From<Outcome> for RouteForm {
    ghost use Rattle.nafthurm.specs.Forms.{route_for};

    ghost from_gives = { λ outcome made. made ≡ route_for outcome };

    fn from(outcome: Outcome) -> RouteForm {
        let entry = entry_for(0, outcome);
        RouteForm {
            number: outcome.number(),
            kind: entry.kind,
            via: [entry.via, entry.second],
        }
    }
}

fn length_for(outcome: Outcome) -> u16
    ensures { result ≡ length_for outcome }
{
    match outcome {
        Outcome::Given(_, length) => length,
        Outcome::Refused(_) => 0,
    }
}

impl From<Outcome> for PlannedForm {
    ghost use Rattle.nafthurm.specs.Forms.{planned_for};

    ghost from_gives = { λ outcome made. made ≡ planned_for outcome };

    fn from(outcome: Outcome) -> PlannedForm {
        PlannedForm {
            route: outcome.into(),
            length: length_for(outcome),
        }
    }
}

// The route that a form says; it says no length. Of a form with a number that refusal, of one that no cause has the first: `packet_in` makes one packet of
// all of them.
pub fn outcome_in(destination: u16, form: RouteForm) -> Outcome
    ensures { result ≡ outcome_in destination form }
{
    if form.number != 0 {
        return Outcome::refused(form.number);
    }
    let [via, second] = form.via;
    outcome_by(
        Entry {
            dest: destination,
            kind: form.kind,
            via,
            second,
        },
        0,
    )
}

// The new packet of a route; of a refusal one at the source with 255 legs and mark 0, which every call declines.
pub fn packet_in(source: u16, destination: u16, outcome: Outcome) -> Packet
    ensures { result ≡ packet_in source destination outcome }
{
    match outcome {
        Outcome::Given(route, _) => Packet::new(source, destination, route),
        Outcome::Refused(_) => {
            let leg = Leg {
                target: destination,
                mode: Mode::Adaptive,
            };
            Packet::with(source, source, [leg; MOST_LEGS], 255, 0)
        }
    }
}
