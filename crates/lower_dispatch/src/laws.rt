//! A law of zones.
ghost use Rattle.lower_dispatch.specs.Laws.{PacketsUseZones};

/// Packets belong to zones in use alone.
pub fn packets_use_zones()
    ensures { PacketsUseZones }
{}
