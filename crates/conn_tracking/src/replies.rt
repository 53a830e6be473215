// Replies of all headers of a box at once.
ghost use Rattle.std.specs.Prelude.{◌≡◌, IfSome, List, ℕ};
ghost use Rattle.box_images.specs.Images.{IsImageOfAnswer, IsImageOfOpen, IsValidImage};
ghost use Rattle.conn_tracking.specs.OnImages.{AreAnswerAndOpen, AreAnswers, GivesReply, TellsReply, TellsSame};

use box_images::{Image, Part};

/// The reply of an open, none where it is an ICMP message that has none.
pub fn reply_on(opened: &Image) -> Part<Option<Image>>
    requires valid { IsValidImage opened.now }
    ensures answer { (addresses : List ℕ) → IsImageOfOpen addresses opened.now
        → GivesReply addresses opened.now result }
    ensures kind { (addresses : List ℕ) → IsImageOfOpen addresses opened.now
        → IfSome result.told (IsImageOfAnswer addresses) }
{
    opened.reply()
}

// Whether two answers have the same header.
fn same_on(i: &Image, j: &Image) -> Part<bool>
    requires valid { IsValidImage i.now }
    requires valid_other { IsValidImage j.now }
    requires part { j.now.part ≡ i.now.part }
    requires kinds { (addresses : List ℕ) × AreAnswers addresses i.now j.now }
    ensures { (addresses : List ℕ) → AreAnswers addresses i.now j.now
        → TellsSame addresses i.now j.now result }
{
    i.same(j)
}

/// Whether a header is the reply of an open.
pub fn answers_on(i: &Image, opened: &Image) -> Part<bool>
    requires valid { IsValidImage i.now }
    requires valid_open { IsValidImage opened.now }
    requires part { opened.now.part ≡ i.now.part }
    requires kinds { (addresses : List ℕ) × AreAnswerAndOpen addresses i.now opened.now }
    ensures { (addresses : List ℕ) → AreAnswerAndOpen addresses i.now opened.now
        → TellsReply addresses i.now opened.now result }
{
    let reply = reply_on(opened);
    match &reply.told {
        Some(told) => same_on(told, &i.within(&reply.body)),
        None => Part {
            body: reply.body,
            told: false,
        },
    }
}
