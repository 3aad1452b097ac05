// Reading telecommand packets.
#![tactic(auto)]

mod decode;
mod fields;
mod frame;
mod judge;
pub mod packet;
mod packet_type;
pub mod read;
