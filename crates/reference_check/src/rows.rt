// What every row of a description has: an id, and lists that may be too long.
ghost use Rattle.std.specs.Prelude.{◌≡◌, List, ℕ, Bool};

use vpc_model::{
    Acl, Appliance, Association, Attachment, Group, Id, Interface, InternetGateway, NatGateway,
    Peering, PrefixList, RouteTable, Subnet, TgwTable, Vpc,
};

/// A row of a list of the description.
pub trait Row {
    ghost id_of: { Self → List ℕ };

    fn id(&self) -> &Id
        ensures { result.now ≡ id_of self.now };
}

impl Row for Vpc {
    ghost id_of = { λ r. r.id };

    fn id(&self) -> &Id {
        &self.id
    }
}

impl Row for Subnet {
    ghost id_of = { λ r. r.id };

    fn id(&self) -> &Id {
        &self.id
    }
}

impl Row for Interface {
    ghost id_of = { λ r. r.id };

    fn id(&self) -> &Id {
        &self.id
    }
}

impl Row for RouteTable {
    ghost id_of = { λ r. r.id };

    fn id(&self) -> &Id {
        &self.id
    }
}

impl Row for PrefixList {
    ghost id_of = { λ r. r.id };

    fn id(&self) -> &Id {
        &self.id
    }
}

impl Row for Acl {
    ghost id_of = { λ r. r.id };

    fn id(&self) -> &Id {
        &self.id
    }
}

impl Row for Group {
    ghost id_of = { λ r. r.id };

    fn id(&self) -> &Id {
        &self.id
    }
}

impl Row for InternetGateway {
    ghost id_of = { λ r. r.id };

    fn id(&self) -> &Id {
        &self.id
    }
}

impl Row for NatGateway {
    ghost id_of = { λ r. r.id };

    fn id(&self) -> &Id {
        &self.id
    }
}

impl Row for Peering {
    ghost id_of = { λ r. r.id };

    fn id(&self) -> &Id {
        &self.id
    }
}

impl Row for Attachment {
    ghost id_of = { λ r. r.id };

    fn id(&self) -> &Id {
        &self.id
    }
}

impl Row for Association {
    ghost id_of = { λ r. r.attachment };

    fn id(&self) -> &Id {
        &self.attachment
    }
}

impl Row for TgwTable {
    ghost id_of = { λ r. r.id };

    fn id(&self) -> &Id {
        &self.id
    }
}

impl Row for Appliance {
    ghost id_of = { λ r. r.id };

    fn id(&self) -> &Id {
        &self.id
    }
}
