// Laws of tests.
ghost use Rattle.vpc_laws.specs.Equality.{ConnectionsAreToldApart, EndsAreToldApart, HeadersAreToldApart, PlacesAreToldApart};

/// Two places are one only where all of them is.
pub fn tells_places_apart()
    ensures { PlacesAreToldApart }
{}

/// Two headers are one only where all of them is.
pub fn tells_headers_apart()
    ensures { HeadersAreToldApart }
{}

/// Two ends are one only where all of them is.
pub fn tells_ends_apart()
    ensures { EndsAreToldApart }
{}

/// Two connections are one only where all of them is.
pub fn tells_connections_apart()
    ensures { ConnectionsAreToldApart }
{}
