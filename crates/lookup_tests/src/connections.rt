// Answers of boxes.
ghost use Rattle.std.specs.Prelude.{◌≡◌};
ghost use Rattle.header_boxes.specs.Boxes.{IsValid};

use box_images::{Image, Part};
use conn_tracking::{ImageEntry, tracked_on};
use header_boxes::Box5;
use vpc_base::Dir;
use vpc_model::EniNo;

const REQUESTS: Box5 = Box5 {
    proto: (6, 6),
    src: (10, 20),
    dst: (100, 200),
    p: (1000, 2000),
    q: (443, 443),
};

// Whether the answers to all requests of a box answer one of three opens: one from the source 15, one to the
// destination 150, and the request itself.
fn asked(b: &Box5, eni: u32, dir: Dir) -> Option<Part<bool>>
    requires { IsValid b.now }
{
    let request = Image::of(b);
    let reply = request.reply();
    let opened = request.within(&reply.body);
    match &reply.told {
        Some(answer) => {
            let entries = [
                entry(3, &opened.set_src(15)),
                entry(3, &opened.set_dst(150)),
                entry(3, &opened),
            ];
            Some(tracked_on(&entries, EniNo(eni), dir, answer))
        }
        None => None,
    }
}

fn entry(eni: u32, header: &Image) -> ImageEntry
    ensures { result.header ≡ header.now }
{
    ImageEntry {
        eni: EniNo(eni),
        dir: Dir::Outward,
        header: *header,
    }
}

#[test]
fn answers_of_a_box(rt: HostRuntime) {
    // the source and destination of the requests, and the last ones of the body, where the request is tracked
    let cases: [((u32, u32), (u32, u32), u32, u32); 5] = [
        // neither the first nor the second open is answered, up to where it is
        ((10, 20), (100, 200), 14, 149),
        // the first one is, and nothing else is asked
        ((15, 20), (100, 200), 15, 200),
        ((16, 20), (100, 200), 20, 149),
        ((16, 20), (150, 200), 20, 150),
        ((16, 20), (151, 200), 20, 200),
    ];
    for (src, dst, last_src, last_dst) in cases {
        assert!(rt; src.0 <= src.1);
        assert!(rt; dst.0 <= dst.1);
        let part = Box5 {
            src,
            dst,
            ..REQUESTS
        };
        let body = Box5 {
            src: (src.0, last_src),
            dst: (dst.0, last_dst),
            ..REQUESTS
        };
        // and of another interface or direction nothing is
        let questions = [
            (3, Dir::Inward, body, true),
            (3, Dir::Outward, part, false),
            (2, Dir::Inward, part, false),
        ];
        for (eni, dir, body, told) in questions {
            let answer = asked(&part, eni, dir);
            assert!(rt;
                answer == Some(Part { body, told }),
                "{src:?} {dst:?} {eni} {dir:?}"
            );
        }
    }
}
