//! What a pin is for.
ghost use Rattle.pq_pool.specs.Protection.{PinsProtect};

/// Law: no chunk becomes free while a seat that was pinned when the chunk was live, or young, has stayed pinned. It
/// speaks of what counts at moments one after the other, between which builders sweep, take, publish and retire, and a
/// rule above may make chunks live that are being built.
pub fn pins_protect()
    ensures { PinsProtect }
{}
