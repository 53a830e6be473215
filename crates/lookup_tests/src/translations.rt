// Opens and answers of boxes, and 55,000 opens of two hosts.
ghost use Rattle.std.specs.Prelude.{◌≡◌, ◌∷◌, []};
ghost use Rattle.box_images.specs.Images.{IsImageOfOpen, IsValidImage};
ghost use Rattle.header_boxes.specs.Boxes.{IsValid};

use box_images::{Field, Image, Part, Side};
use conn_tracking::reply_on;
use header_boxes::Box5;
use nat_gateway::{GrowingNats, NatBook, inward_on, outward_on};
use std::test::Fail;
use vpc_base::Header;
use vpc_model::NatNo;

const REQUESTS: Box5 = Box5 {
    proto: (6, 6),
    src: (10, 20),
    dst: (100, 200),
    p: (1000, 2000),
    q: (443, 443),
};

// The opens of a box, sent out by a gateway at the address 7.
fn sent(b: &Box5) -> Part<Option<Image>>
    requires { IsValid b.now }
{
    outward_on(7, &Image::of(b))
}

#[test]
fn sends_a_box(rt: HostRuntime) {
    let low = Some(Field::Of(Side::P, 1024));
    let high = Some(Field::Of(Side::P, 0));
    // proto and p of the opens; the last ones of the body; p of what they become
    let cases: [((u8, u8), (u16, u16), u8, u16, Option<Field>); 10] = [
        ((6, 6), (1000, 2000), 6, 1023, low),
        ((6, 6), (1023, 1023), 6, 1023, low),
        ((6, 6), (1024, 2000), 6, 2000, high),
        ((0, 255), (0, 65535), 0, 65535, None),
        ((1, 255), (1024, 65535), 1, 65535, high),
        ((2, 255), (0, 65535), 5, 65535, None),
        ((6, 255), (0, 65535), 6, 1023, low),
        ((7, 255), (0, 65535), 16, 65535, None),
        ((17, 255), (0, 65535), 17, 1023, low),
        ((18, 255), (0, 65535), 255, 65535, None),
    ];
    for (proto, p, last_proto, last_p, port) in cases {
        assert!(rt; proto.0 <= proto.1);
        assert!(rt; p.0 <= p.1);
        let body = Box5 {
            proto: (proto.0, last_proto),
            p: (p.0, last_p),
            ..REQUESTS
        };
        let told = port.map(|p| Image {
            part: body,
            proto: Field::Of(Side::Proto, 0),
            src: Field::Fixed(7),
            dst: Field::Of(Side::Dst, 0),
            p,
            q: Field::Of(Side::Q, 0),
        });
        let part = sent(&Box5 {
            proto,
            p,
            ..REQUESTS
        });
        assert!(rt; part == Part { body, told }, "{proto:?} {p:?}");
    }
}

// What the answers from the address 150 to these opens become at the gateway.
fn given_back(b: &Box5) -> Option<Part<Option<Image>>>
    requires { IsValid b.now }
{
    let before = Image::of(b);
    let sent = outward_on(7, &before);
    match &sent.told {
        Some(after) => answered(&before.within(&sent.body), after),
        None => None,
    }
}

// What becomes of the answers to an open that was sent out, before and after it.
fn answered(before: &Image, after: &Image) -> Option<Part<Option<Image>>>
    requires valid_before { IsValidImage before.now }
    requires valid_after { IsValidImage after.now }
    requires part { after.now.part ≡ before.now.part }
    requires kind_before { IsImageOfOpen (7 ∷ 150 ∷ []) before.now }
    requires kind_after { IsImageOfOpen (7 ∷ 150 ∷ []) after.now }
{
    let reply = reply_on(after);
    match &reply.told {
        Some(answer) => {
            let before = before.within(&reply.body);
            let after = after.within(&reply.body);
            Some(inward_on(&before, &after, &answer.set_src(150)))
        }
        None => None,
    }
}

#[test]
fn gives_a_box_back(rt: HostRuntime) {
    // destination and p of the opens; the last ones of the body; whether they are answered from there
    let cases: [((u32, u32), (u16, u16), u32, u16, bool); 4] = [
        ((100, 200), (1024, 2000), 149, 2000, false),
        ((150, 200), (1024, 2000), 150, 2000, true),
        ((150, 150), (80, 2000), 150, 1023, true),
        ((151, 200), (80, 2000), 200, 1023, false),
    ];
    for (dst, p, last_dst, last_p, answered) in cases {
        assert!(rt; dst.0 <= dst.1);
        assert!(rt; p.0 <= p.1);
        let body = Box5 {
            dst: (dst.0, last_dst),
            p: (p.0, last_p),
            ..REQUESTS
        };
        let told = answered.then_some(Image {
            part: body,
            proto: Field::Of(Side::Proto, 0),
            src: Field::Of(Side::Dst, 0),
            dst: Field::Of(Side::Src, 0),
            p: Field::Of(Side::Q, 0),
            q: Field::Of(Side::P, 0),
        });
        let part = given_back(&Box5 { dst, p, ..REQUESTS });
        assert!(rt; part == Some(Part { body, told }), "{dst:?} {p:?}");
    }
}

fn header(src: u32, p: u16) -> Header {
    Header {
        proto: 17,
        src,
        dst: 0xC633_6407,
        p,
        q: 53,
    }
}

// Two hosts open from the same 27,500 ports: the second gets those after them.
#[test]
fn two_hosts_on_the_same_ports(rt: HostRuntime) -> Result<(), Fail> {
    let mut book = GrowingNats::new(rt.alloc());
    for (host, gain) in [(1, 0u16), (2, 27500)] {
        for p in 1024..28524u16 {
            book.reserve(1)?;
            let want = p.wrapping_add(gain);
            let given = match book.outward(NatNo(2), 7, &header(host, p)) {
                Ok(after) => after.p,
                Err(_) => 0,
            };
            assert!(rt; given == want);
        }
    }
    Ok(())
}
