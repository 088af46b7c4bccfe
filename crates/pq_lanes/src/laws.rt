//! Laws of scripts.
ghost use Rattle.pq_lanes.specs.Drills.{DrillsLeaveNothing, MadeScriptsAreDrills};

/// Law: where each lane inserts some entries and then removes as many, and the queue's capacity is that of all these
/// entries and the lanes together, every command has its mark, no insert is refused, and nothing is left.
pub fn drills_leave_nothing()
    ensures { DrillsLeaveNothing }
{}

/// Law: in a made script each lane inserts some entries and then removes as many.
pub fn made_scripts_are_drills()
    ensures { MadeScriptsAreDrills }
{}
