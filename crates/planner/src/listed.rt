// What a route sheet from a source lists: the destinations to which the direct adaptive leg is not clear.
ghost use Rattle.std.specs.Prelude.{◌≡◌, true, false, ◌≤◌, length};
ghost use Rattle.machine.specs.declared.leg.Mode.TheVariants.{Adaptive, Deterministic};
ghost use Rattle.plan.specs.Layout.{faults_of};
ghost use Rattle.dead.specs.Dead.{dead_node};
ghost use Rattle.routes.specs.Layout.{most_bytes};
ghost use Rattle.masks.specs.Masks.{Ended};
ghost use Rattle.notes.specs.Known.{IsAt};
ghost use Rattle.first_clear.specs.Known.{Noted};
ghost use Rattle.planner.specs.Known.{Work, Listed, Twos};

use crate::dest::outcome_to;
use crate::known::Known;
use crate::noting::notes_from;
use crate::outside::{At, next_outside};
use crate::source::Source;
use crate::target::Target;
use machine::leg::ByMode;
use notes::sets_of::from_masks;
use route_value::set_entry;
use routes::kinds::entry_for;
use search::best::UNCLEAR;
use shape::Coords;

// The entries go to their places in the bytes of a sheet. Each destination is planned once.
fn list(source: &Source, notes: &[u32; 4096], twos: &[u32; 4096], bytes: &mut [u8]) -> u16
    requires noted { let p = source.now.known.plan.now in Work p source.now.known.work.now → Noted p source.now.node notes.now × Twos p source.now.node notes.now twos.now }
    requires most_bytes_in_bounds { most_bytes ≤ length bytes.old }
    ensures { Listed source.now.known.plan.now source.now.known.work.now source.now.node bytes.new result }
{
    let shape = source.known.shape;
    let direct = source.clear.adaptive;
    let mut listed: usize = 0;
    let first = At {
        node: 0,
        x: 0,
        y: 0,
        z: 0,
    };
    let mut at = next_outside(shape, direct, first);
    // By places, and no `for` over numbers: the coordinates of a node are not divided out.
    while at.z < shape.z {
        let target = Target {
            source: &*source,
            node: at.node,
            at: Coords {
                x: at.x,
                y: at.y,
                z: at.z,
            },
        };
        let outcome = outcome_to(&target, notes, twos);
        set_entry(bytes, listed, entry_for(at.node, outcome));
        listed += 1;
        let behind = At {
            node: at.node + 1,
            x: at.x + 1,
            y: at.y,
            z: at.z,
        };
        at = next_outside(shape, direct, behind);
    }
    listed as u16
}

// From a sound source, whose masks they are: its entries in the bytes of a sheet, and how many they are. The empty run has no sets.
pub fn routes_from(
    known: &Known,
    source: u16,
    a: Coords,
    masks: ByMode<&[u16; 288]>,
    bytes: &mut [u8],
) -> u16
    requires at { IsAt known.now.plan.now source a }
    requires ended { Ended Adaptive true known.now.shape a masks.adaptive.now }
    requires ended_2 { Ended Deterministic true known.now.shape a masks.deterministic.now }
    requires source_value { dead_node (faults_of known.now.plan.now) source ≡ false }
    requires most_bytes_in_bounds { most_bytes ≤ length bytes.old }
    ensures { Listed known.now.plan.now known.now.work.now source bytes.new result }
{
    let adaptive = from_masks(known.losses, masks.adaptive);
    let deterministic = from_masks(known.losses, masks.deterministic);
    let clear = ByMode {
        adaptive: &adaptive,
        deterministic: &deterministic,
    };
    let source = Source {
        known: *known,
        node: source,
        at: a,
        clear,
    };
    let mut notes = [UNCLEAR; 4096];
    let mut twos = [UNCLEAR; 4096];
    notes_from(&source, &adaptive, &mut notes, &mut twos);
    list(&source, &notes, &twos, bytes)
}
