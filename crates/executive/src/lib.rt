// The executive over any three links and any watch.
#![tactic(auto)]

pub mod executive;
