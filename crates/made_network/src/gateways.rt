// What joins a VPC to the transit gateway.
ghost use Rattle.made_network.specs.Made.{learnt_route, made_association, made_attachment};

use crate::ids::{id_of, numbered};
use crate::lists::only_row;
use crate::rows::{MadeRow, vpc_block};
use std::alloc::Global;
use vpc_base::NoMemory;
use vpc_model::{Association, Attachment, TgwRoute};

impl MadeRow for Attachment {
    ghost row_of = { made_attachment };

    fn made(alloc: Global, number: u8) -> Result<Attachment, NoMemory> {
        Ok(Attachment {
            id: numbered(alloc, "att", number)?,
            gateway: id_of(alloc, b"tgw-1")?,
            vpc: numbered(alloc, "vpc", number)?,
            subnets: only_row(alloc, numbered(alloc, "subnet", number)?)?,
        })
    }
}

impl MadeRow for Association {
    ghost row_of = { made_association };

    fn made(alloc: Global, number: u8) -> Result<Association, NoMemory> {
        Ok(Association {
            attachment: numbered(alloc, "att", number)?,
            table: id_of(alloc, b"tgw-rtb-1")?,
        })
    }
}

impl MadeRow for TgwRoute {
    ghost row_of = { learnt_route };

    fn made(alloc: Global, number: u8) -> Result<TgwRoute, NoMemory> {
        Ok(TgwRoute {
            block: vpc_block(number),
            blackhole: false,
            propagated: true,
            attachment: Some(numbered(alloc, "att", number)?),
        })
    }
}
