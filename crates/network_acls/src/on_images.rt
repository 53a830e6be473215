// The verdict on all headers of an image.
ghost use Rattle.std.specs.Prelude.{◌≡◌, false, find};
ghost use Rattle.box_images.specs.Answers.{Answers};
ghost use Rattle.box_images.specs.Images.{IsImageOfWalk, IsValidImage, header_at};
ghost use Rattle.cut_laws.specs.Dividing.{Divide};
ghost use Rattle.header_boxes.specs.Boxes.{low_of};
ghost use Rattle.vpc_model.specs.Acls.{verdict_of_row};
ghost use Rattle.vpc_model.specs.Cuts.{cuts_of_acl_row};
ghost use Rattle.network_acls.specs.Tried.{DivideRows, MatchesNone, row_matches};

use crate::index::LAST_RULE;
use box_images::{Image, Part, Side};
use image_tests::{block_on, far_side, rule_on};
use vpc_base::{Dir, Header};
use vpc_model::{AclRow, far_address};

// Whether a row could match a header of an image, its protocol aside. It couldn't where its ports or its block end before
// the low corner, or begin after all headers.
fn could_match(row: &AclRow, dir: Dir, low: &Header, i: &Image) -> bool
    requires valid { IsValidImage i.now }
    requires low { low.now ≡ header_at i.now (low_of i.now.part) }
    ensures { result ≡ false → MatchesNone dir i.now row.now }
{
    // (of many rows most are passed by their ports, so these are looked at first)
    if row.q_to < low.q {
        return false;
    }
    if i.greatest(Side::Q) < u32::from(row.q_from) {
        return false;
    }
    if row.block.last() < far_address(dir, low) {
        return false;
    }
    row.block.first() <= i.greatest(far_side(dir))
}

// Whether a row of the direction matches. One that doesn't by its block is told so of all protocols and ports.
fn matches_on(row: &AclRow, dir: Dir, i: &Image) -> Part<bool>
    requires valid { IsValidImage i.now }
    requires walk { IsImageOfWalk i.now }
    ensures { Answers (Divide (cuts_of_acl_row row.now))
        (λ h. row_matches dir (header_at i.now h) row.now) i.now.part result }
{
    let fits = rule_on(i, row.proto, row.q_from, row.q_to);
    if !fits.told {
        return fits;
    }
    let side = far_side(dir);
    let far = block_on(i, side, &row.block);
    if !far.told {
        return far;
    }
    block_on(&i.within(&fits.body), side, &row.block)
}

/// What the first row that matches says. A row that could match a header, and doesn't match the low corner, leaves the headers
/// up to the next edge of its protocol, range or block, whichever it doesn't match by.
pub fn first_verdict_on(rows: &[AclRow], dir: Dir, i: &Image) -> Part<(bool, u16)>
    requires valid { IsValidImage i.now }
    requires walk { IsImageOfWalk i.now }
    ensures { Answers (DivideRows rows.now)
        (λ h. verdict_of_row (find (row_matches dir (header_at i.now h)) rows.now)) i.now.part result }
{
    let low = i.value(&i.part.low());
    let mut rest = *i;
    for row in rows {
        if could_match(row, dir, &low, &rest) {
            let matched = matches_on(row, dir, &rest);
            if matched.told {
                return Part {
                    body: matched.body,
                    told: (row.allow, row.number),
                };
            }
            rest.keep(&matched.body);
        }
    }
    Part {
        body: rest.part,
        told: (false, LAST_RULE),
    }
}
