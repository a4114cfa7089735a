// Packets: the new packet of a route, the step, the walk, and a hop taken back.
ghost use Rattle.std.specs.Prelude.{◌≡◌};
ghost use Rattle.theory.specs.Packet.{step, walk, walk_number};
ghost use Rattle.theory.specs.Back.{back};
ghost use Rattle.machine.specs.Torus.{torus};
ghost use Rattle.legs.specs.Backward.{backward};
ghost use Rattle.packet.specs.Packet.{packet_error, kept, stored};
ghost use Rattle.packet.specs.Answers.{told, told_walk};
ghost use Rattle.nafthurm.specs.Forms.{shape_of, packet_of, stepped_for, walked_for, outcome_in, packet_in, made_for};

use crate::forms::{
    PacketForm, RouteForm, ShapeForm, SteppedForm, WalkedForm, outcome_in, packet_in, stepped_for,
    walked_for,
};
use packet::Packet;
use sheet::output::number;

#[unsafe(no_mangle)]
pub extern "C" fn nafthurm_new_packet(source: u16, destination: u16, route: RouteForm) -> PacketForm
    ensures { result ≡ made_for (packet_in source destination (outcome_in destination route)) }
{
    packet_in(source, destination, outcome_in(destination, route)).into()
}

#[unsafe(no_mangle)]
pub extern "C" fn nafthurm_packet_check(shape: ShapeForm, packet: PacketForm) -> u8
    ensures { result ≡ packet_error (shape_of shape) (packet_of packet) }
{
    number(Packet::from(packet).check(shape.into()))
}

#[unsafe(no_mangle)]
pub extern "C" fn nafthurm_step(shape: ShapeForm, packet: PacketForm, direction: u8) -> SteppedForm
    ensures value { result ≡ stepped_for packet (told (step (torus (shape_of shape)) (stored (shape_of shape)) (packet_of packet) direction)) }
    ensures number { result.number ≡ (step (torus (shape_of shape)) (stored (shape_of shape)) (packet_of packet) direction).number }
{
    stepped_for(packet, Packet::from(packet).step(shape.into(), direction))
}

#[unsafe(no_mangle)]
pub extern "C" fn nafthurm_walk(
    shape: ShapeForm,
    packet: PacketForm,
    directions: &[u8],
) -> WalkedForm
    ensures value { result ≡ walked_for packet (told_walk (walk (torus (shape_of shape)) (stored (shape_of shape)) (packet_of packet) directions.now)) }
    ensures number { result.number ≡ walk_number (walk (torus (shape_of shape)) (stored (shape_of shape)) (packet_of packet) directions.now).ending }
{
    walked_for(packet, Packet::from(packet).walk(shape.into(), directions))
}

#[unsafe(no_mangle)]
pub extern "C" fn nafthurm_take_back(
    shape: ShapeForm,
    packet: PacketForm,
    direction: u8,
) -> SteppedForm
    ensures value { result ≡ stepped_for packet (told (back (torus (shape_of shape)) (backward (shape_of shape)) (kept (shape_of shape)) (packet_of packet) direction)) }
    ensures number { result.number ≡ (back (torus (shape_of shape)) (backward (shape_of shape)) (kept (shape_of shape)) (packet_of packet) direction).number }
{
    stepped_for(
        packet,
        Packet::from(packet).take_back(shape.into(), direction),
    )
}
