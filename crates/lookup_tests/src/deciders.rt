// Deciders ask their closure of one header, and their boxes of many: this closure counts its calls. A body reaches to
// where the answer may turn.
ghost use Rattle.std.specs.Prelude.{◌≡◌, ◌≤◌, ◌∷◌, [], IfOk, length};
ghost use Rattle.header_boxes.specs.Boxes.{IsValid};
ghost use Rattle.vpc_model.specs.Appliances.{boxes_of_kind, passes};
ghost use Rattle.vpc_model.specs.declared.rows.ApplianceKind.TheVariants as forwards;

use crate::requests::opens;
use appliances::{Deciders, kind_boxes, kind_passes};
use box_images::Part;
use header_boxes::Box5;
use std::alloc::Global;
use std::cell::Cell;
use std::process::Abort;
use std::rc::Rc;
use std::test::Fail;
use vpc_base::{Header, OwnList};
use vpc_model::{ApplianceKind, EniNo};

const HTTPS: ApplianceKind = ApplianceKind::Service(443, 443);

// One appliance, which forwards HTTPS.
fn appliances(alloc: Global) -> Result<OwnList<(EniNo, OwnList<Box5>)>, Fail>
    ensures { IfOk result (λ v. v ≡ (record { 0 = 7 }, boxes_of_kind (forwards.Service 443 443)) ∷ []) }
{
    let boxes = kind_boxes(alloc, &HTTPS)?;
    Ok(OwnList::of(vec![in alloc; (EniNo(7), OwnList::of(boxes))]?))
}

fn to_port(q: u16) -> Header {
    Header {
        proto: 6,
        src: 1,
        dst: 2,
        p: 5000,
        q,
    }
}

/// Protocols, and ports from and to which requests go.
type Sides = ((u8, u8), (u16, u16), (u16, u16));

fn requests(proto: (u8, u8), p: (u16, u16), q: (u16, u16)) -> Box5
    ensures { proto.0 ≤ proto.1 → p.0 ≤ p.1 → q.0 ≤ q.1 → IsValid result }
{
    Box5 {
        proto,
        src: (1, 9),
        dst: (1, 9),
        p,
        q,
    }
}

const TCP: (u8, u8) = (6, 6);

const ANY: (u16, u16) = (1024, 65535);

const ONE: (u16, u16) = (443, 443);

// What is asked, and the part of it that is told to pass or not.
const CASES: [(Sides, Sides, bool); 10] = [
    ((TCP, ANY, ONE), (TCP, ANY, ONE), true),
    ((TCP, ANY, (443, 500)), (TCP, ANY, ONE), true),
    ((TCP, ANY, (0, 500)), (TCP, ANY, (0, 442)), false),
    ((TCP, ANY, (444, 500)), (TCP, ANY, (444, 500)), false),
    ((TCP, (0, 500), (80, 80)), (TCP, (0, 442), (80, 80)), false),
    ((TCP, (443, 500), (80, 90)), (TCP, ONE, (80, 90)), true),
    ((TCP, (443, 500), (80, 500)), (TCP, ONE, (80, 500)), true),
    (((0, 255), ANY, ONE), ((0, 5), ANY, ONE), false),
    (((7, 255), ANY, ONE), ((7, 16), ANY, ONE), false),
    (((17, 255), ANY, ONE), ((17, 17), ANY, ONE), true),
];

fn passes_parts_alike(rt: &impl Abort, deciders: &Deciders)
    requires { length deciders.now.appliances ≡ 1 }
{
    for ((proto, p, q), within, told) in CASES {
        assert!(rt; proto.0 <= proto.1);
        assert!(rt; p.0 <= p.1);
        assert!(rt; q.0 <= q.1);
        let part = requests(proto, p, q);
        let body = requests(within.0, within.1, within.2);
        assert!(rt;
            deciders.passes_on(0, &opens(&part)) == Part { body, told },
            "{part:?}"
        );
    }
}

#[test]
fn the_closure_is_asked(rt: HostRuntime) -> Result<(), Fail> {
    let alloc = rt.alloc();
    let asked = Rc::new(alloc, Cell::new(0u32))?;
    let counter = asked.clone()?;
    let decide = Box::new(
        alloc,
        move |_k: u32, h: &Header| -> bool
            ensures { result ≡ passes (boxes_of_kind (forwards.Service 443 443)) h.now }
        {
            counter.set(counter.get().wrapping_add(1));
            kind_passes(&HTTPS, h)
        },
    )?;
    let deciders = Deciders::of(alloc, appliances(alloc)?, decide)?;
    assert!(rt; deciders.number(EniNo(6)) == None);
    assert!(rt; deciders.number(EniNo(7)) == Some(0));
    for (q, passes) in [(443, true), (444, false), (442, false)] {
        assert!(rt; deciders.passes(0, &to_port(q)) == passes);
    }
    passes_parts_alike(&rt, &deciders);
    assert!(rt; asked.get() == 3);
    Ok(())
}
