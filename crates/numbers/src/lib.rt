// The causes for which a call declines, in document 01's words and order, each with its number; specs/Numbers.antt has the same names.
#![tactic(auto)]

ghost use Rattle.std.specs.Prelude.{◌≡◌};
ghost use Rattle.numbers.specs.Refusals.{number};

#[derive(Clone, Copy, PartialEq, Eq)]
pub enum Refusal {
    // Plan sheet under 9 bytes, of version 2 under 12.
    PlanShort = 1,

    // Plan version neither 1 nor 2.
    PlanVersionUnknown = 2,

    // Fault count above 256.
    ManyFaults = 3,

    // Length field not the bytes that follow, or not 6 + 3 × count, of version 2 not 9 + 3 × count.
    WrongLength = 4,

    // An extent outside 1 to 16.
    ExtentOutside = 5,

    // Wrap on an extent below 3, or a spare wrap bit set.
    WrongWrap = 6,

    // A fault's node, kind or link does not exist.
    NoSuchFault = 7,

    // A fault not above the one before.
    FaultNotAbove = 8,

    // A node number outside the plan.
    NodeOutside = 9,

    // A dead source or destination.
    DeadEnd = 10,

    // No clear choice.
    NoClearChoice = 11,

    // Output shorter than the sheet.
    OutputShort = 12,

    // Route sheet not of the layout, a node outside the plan, or a via equal to an end.
    WrongRouteSheet = 13,

    // Packet naming a node outside the shape, or with over three legs; or a mark further than just past the last leg.
    WrongPacket = 14,

    // Direction not allowed, or above 5.
    NotAllowed = 15,

    // A weight outside 1 to 8.
    WeightOutside = 16,

    // An entry that cannot be kept.
    EntryNotKept = 17,

    // No allowed walk from the packet's source ends at this packet by that hop, a direction above 5 included.
    NotBack = 18,
}

impl Refusal {
    pub fn number(self) -> u8
        ensures { result ≡ number self }
    {
        self as u8
    }
}
