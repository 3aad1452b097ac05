// The seven types of telecommand packets.
ghost use Rattle.std.specs.Prelude.{◌≡◌};
ghost use Rattle.telecommands.specs.Frames.{named_type};
ghost use Rattle.telecommands.specs.Types.{type_of};

use records::refusal::Refusal;

#[derive(Clone, Copy)]
pub enum PacketType {
    ConnectionTest,
    FunctionActivity,
    ProcedureLoad,
    ProcedureDelete,
    ProcedureStart,
    ProcedureStop,
    ProcedureSettings,
}

/// The type of a service and subtype, which are also what is wrong with them.
impl TryFrom<(u8, u8)> for PacketType {
    type Error = Refusal;

    ghost try_from_gives = { λ named found. found ≡ named_type (type_of named.0 named.1) named.0 named.1 };

    fn try_from(named: (u8, u8)) -> Result<PacketType, Refusal> {
        match named {
            (17, 1) => Ok(PacketType::ConnectionTest),
            (8, 4) => Ok(PacketType::FunctionActivity),
            (18, 1) => Ok(PacketType::ProcedureLoad),
            (18, 2) => Ok(PacketType::ProcedureDelete),
            (18, 3) => Ok(PacketType::ProcedureStart),
            (18, 4) => Ok(PacketType::ProcedureStop),
            (18, 7) => Ok(PacketType::ProcedureSettings),
            (service, subtype) => Err(Refusal::UnknownType { service, subtype }),
        }
    }
}
