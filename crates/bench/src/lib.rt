// The step, the walk and a hop taken back as the bench calls them from Rust: numbers, and no struct made of them.
#![tactic(auto)]

use machine::leg::{Leg, Mode};
use numbers::Refusal;
use packet::Packet;
use shape::Shape;

fn mode_of(bit: u8) -> Mode {
    if bit == 0 {
        Mode::Adaptive
    } else {
        Mode::Deterministic
    }
}

fn leg_of(target: u16, bit: u8) -> Leg {
    Leg {
        target,
        mode: mode_of(bit),
    }
}

// A packet of three legs. `modes` has a bit for each deterministic leg, leg one lowest.
fn packet_of(
    source: u16,
    node: u16,
    via: u16,
    further: u16,
    target: u16,
    modes: u8,
    mark: u8,
) -> Packet {
    let first = leg_of(via, modes % 2);
    let second = leg_of(further, modes / 2 % 2);
    let third = leg_of(target, modes / 4 % 2);
    Packet::with(source, node, [first, second, third], 3, mark)
}

// 0, or the number of the refusal.
fn number_of(answer: Result<(), Refusal>) -> u8 {
    match answer {
        Ok(()) => 0,
        Err(refusal) => refusal.number(),
    }
}

// The hops that the walk of such a packet, at its source, takes, and 65,536 for each unit of the number of the node that it ends at. Fewer than 65,536
// directions are told apart.
#[unsafe(no_mangle)]
pub extern "C" fn nafthurm_walk(
    x: u8,
    y: u8,
    z: u8,
    wrap: u8,
    node: u16,
    via: u16,
    further: u16,
    target: u16,
    modes: u8,
    dirs: &[u8],
) -> u64 {
    let shape = Shape { x, y, z, wrap };
    let packet = packet_of(node, node, via, further, target, modes, 0);
    let walked = packet.walk(shape, dirs);
    u64::from(walked.packet.node) * 65536 + (walked.hops % 65536) as u64
}

// The node after a step of such a packet, at its source, and 65,536 for each unit of the refusal's number.
#[unsafe(no_mangle)]
pub extern "C" fn nafthurm_step(
    x: u8,
    y: u8,
    z: u8,
    wrap: u8,
    node: u16,
    via: u16,
    further: u16,
    target: u16,
    modes: u8,
    dir: u8,
) -> u32 {
    let shape = Shape { x, y, z, wrap };
    let stepped = packet_of(node, node, via, further, target, modes, 0).step(shape, dir);
    u32::from(number_of(stepped.answer)) * 65536 + u32::from(stepped.packet.node)
}

// The node before the last hop of such a packet, 65,536 for each unit of the mark there, and 16,777,216 for each unit of the refusal's number.
#[unsafe(no_mangle)]
pub extern "C" fn nafthurm_take_back(
    x: u8,
    y: u8,
    z: u8,
    wrap: u8,
    source: u16,
    node: u16,
    via: u16,
    further: u16,
    target: u16,
    modes: u8,
    mark: u8,
    dir: u8,
) -> u32 {
    let shape = Shape { x, y, z, wrap };
    let taken = packet_of(source, node, via, further, target, modes, mark).take_back(shape, dir);
    let packet = taken.packet;
    u32::from(number_of(taken.answer)) * 16777216
        + u32::from(packet.mark) * 65536
        + u32::from(packet.node)
}
