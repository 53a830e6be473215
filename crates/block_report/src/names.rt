// The names of stops.
ghost use Rattle.std.specs.Prelude.{◌≡◌};
ghost use Rattle.vpc_model.specs.Names.{name_spelled, name_text};

use vpc_model::StopName;

/// The name of a stop, as it is printed.
pub fn name_text(name: StopName) -> &'static [u8]
    ensures { result.now ≡ name_text name }
{
    match name {
        StopName::Detached => b"Detached",
        StopName::SourceCheck => b"SourceCheck",
        StopName::DestCheck => b"DestCheck",
        StopName::GroupsOut => b"GroupsOut",
        StopName::GroupsIn => b"GroupsIn",
        StopName::NotAHost => b"NotAHost",
        StopName::ApplianceDrop => b"ApplianceDrop",
        StopName::NoRoute => b"NoRoute",
        StopName::Blackhole => b"Blackhole",
        StopName::AclOut => b"AclOut",
        StopName::AclIn => b"AclIn",
        StopName::NoHost => b"NoHost",
        StopName::NoGateway => b"NoGateway",
        StopName::GatewayDetached => b"GatewayDetached",
        StopName::NoPublic => b"NoPublic",
        StopName::PrivateAddress => b"PrivateAddress",
        StopName::BlockPublicAccess => b"BlockPublicAccess",
        StopName::NatNotAvailable => b"NatNotAvailable",
        StopName::NatAnswer => b"NatAnswer",
        StopName::NatProtocol => b"NatProtocol",
        StopName::NatFull => b"NatFull",
        StopName::NatUnsolicited => b"NatUnsolicited",
        StopName::PeerNotActive => b"PeerNotActive",
        StopName::PeerSource => b"PeerSource",
        StopName::PeerDestination => b"PeerDestination",
        StopName::TgwNoAttachment => b"TgwNoAttachment",
        StopName::TgwNoZone => b"TgwNoZone",
        StopName::TgwNoTable => b"TgwNoTable",
        StopName::TgwNoRoute => b"TgwNoRoute",
        StopName::TgwBlackhole => b"TgwBlackhole",
        StopName::FarDetached => b"FarDetached",
        StopName::FarNoTable => b"FarNoTable",
        StopName::FarSource => b"FarSource",
        StopName::FarOpens => b"FarOpens",
        StopName::InspectDrop => b"InspectDrop",
        StopName::Unmodelled => b"Unmodelled",
        StopName::Loop => b"Loop",
        StopName::TooFar => b"TooFar",
        StopName::WrongPlace => b"WrongPlace",
        StopName::WrongReturn => b"WrongReturn",
        StopName::NoReply => b"NoReply",
    }
}

const NAMES: [StopName; 41] = [
    StopName::Detached,
    StopName::SourceCheck,
    StopName::DestCheck,
    StopName::GroupsOut,
    StopName::GroupsIn,
    StopName::NotAHost,
    StopName::ApplianceDrop,
    StopName::NoRoute,
    StopName::Blackhole,
    StopName::AclOut,
    StopName::AclIn,
    StopName::NoHost,
    StopName::NoGateway,
    StopName::GatewayDetached,
    StopName::NoPublic,
    StopName::PrivateAddress,
    StopName::BlockPublicAccess,
    StopName::NatNotAvailable,
    StopName::NatAnswer,
    StopName::NatProtocol,
    StopName::NatFull,
    StopName::NatUnsolicited,
    StopName::PeerNotActive,
    StopName::PeerSource,
    StopName::PeerDestination,
    StopName::TgwNoAttachment,
    StopName::TgwNoZone,
    StopName::TgwNoTable,
    StopName::TgwNoRoute,
    StopName::TgwBlackhole,
    StopName::FarDetached,
    StopName::FarNoTable,
    StopName::FarSource,
    StopName::FarOpens,
    StopName::InspectDrop,
    StopName::Unmodelled,
    StopName::Loop,
    StopName::TooFar,
    StopName::WrongPlace,
    StopName::WrongReturn,
    StopName::NoReply,
];

/// The name that a word spells.
pub fn name_spelled(word: &[u8]) -> Option<StopName>
    ensures { result ≡ name_spelled word.now }
{
    NAMES.iter().copied().find(|name| name_text(*name) == word)
}
