// Images that a NAT gateway or a reply makes of an image.
ghost use Rattle.std.specs.Prelude.{ℕ, ◌≡◌, List, IfSome, option_map, true};
ghost use Rattle.header_boxes.specs.Boxes.{holds};
ghost use Rattle.vpc_base.specs.Header.{reply_of};
ghost use Rattle.vpc_base.specs.declared.headers.Header.{Header};
ghost use Rattle.box_images.specs.Images.{IsImageOfAnswer, IsImageOfOpen, IsValidImage, header_at, shifted};
ghost use Rattle.box_images.specs.Bodies.{EndsAtEdges, IsBody, reply_edges, shift_edges};
ghost use Rattle.box_images.specs.Parts.{echo_image, exchanged_image};

use crate::narrow::narrow_field;
use crate::{Field, Image, Part};
use header_boxes::Box5;

const ICMP: u32 = 1;

const ECHO_REQUEST: u32 = 2048;

const ECHO_REPLY: u32 = 0;

const LAST_WELL_KNOWN_PORT: u32 = 1023;

impl Image {
    /// The image with the port that a NAT gateway tries first: p, or p plus 1,024 where p is below
    /// 1,024 (a choice of this project's profile).
    pub fn shift_p(&self) -> Part<Image>
        requires { IsValidImage self.now }
        ensures told { (h : Header) → holds h result.body ≡ true
            → header_at result.told h ≡ shifted (header_at self.now h) }
        ensures body { IsBody result.body self.now.part }
        ensures ends { EndsAtEdges (shift_edges self.now) result.body self.now.part }
        ensures part { result.told.part ≡ result.body }
        ensures valid { IsValidImage result.told }
        ensures kind { (addresses : List ℕ) → IsImageOfOpen addresses self.now
            → IsImageOfOpen addresses result.told }
    {
        let well_known = narrow_field(&self.part, self.p, 0, LAST_WELL_KNOWN_PORT);
        let p = if well_known.told {
            self.p.raised()
        } else {
            self.p
        };
        Part {
            body: well_known.body,
            told: Image {
                part: well_known.body,
                p,
                ..*self
            },
        }
    }

    /// The image of the replies. ICMP messages other than echo requests have none.
    pub fn reply(&self) -> Part<Option<Image>>
        requires { IsValidImage self.now }
        ensures told { (h : Header) → holds h result.body ≡ true
            → option_map (λ i. header_at i h) result.told ≡ reply_of (header_at self.now h) }
        ensures body { IsBody result.body self.now.part }
        ensures ends { EndsAtEdges (reply_edges self.now) result.body self.now.part }
        ensures part { IfSome result.told (λ i. i.part ≡ result.body) }
        ensures valid { IfSome result.told IsValidImage }
        ensures kind { (addresses : List ℕ) → IsImageOfOpen addresses self.now
            → IfSome result.told (IsImageOfAnswer addresses) }
    {
        let icmp = narrow_field(&self.part, self.proto, ICMP, ICMP);
        if !icmp.told {
            return Part {
                body: icmp.body,
                told: Some(self.exchanged(&icmp.body)),
            };
        }
        let echo = narrow_field(&icmp.body, self.q, ECHO_REQUEST, ECHO_REQUEST);
        let told = if echo.told {
            Some(self.echo(&echo.body))
        } else {
            None
        };
        Part {
            body: echo.body,
            told,
        }
    }

    fn exchanged(&self, body: &Box5) -> Image
        ensures { result ≡ exchanged_image self.now body.now }
    {
        Image {
            part: *body,
            proto: self.proto,
            src: self.dst,
            dst: self.src,
            p: self.q,
            q: self.p,
        }
    }

    fn echo(&self, body: &Box5) -> Image
        ensures { result ≡ echo_image self.now body.now }
    {
        Image {
            part: *body,
            proto: self.proto,
            src: self.dst,
            dst: self.src,
            p: self.p,
            q: Field::Fixed(ECHO_REPLY),
        }
    }
}
