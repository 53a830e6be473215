// What is left of a box without a part that lies in it.
ghost use Rattle.std.specs.Prelude.{◌≡◌, ◌≤◌, ◌+◌, ◌++◌};
ghost use Rattle.arrayvec.specs.ArrayVec.{array_vec_len};
ghost use Rattle.header_boxes.specs.Boxes.{IsWithin};
ghost use Rattle.header_boxes.specs.Rest.{rest_of, off_proto, off_src, off_dst, off_p, off_q};

use crate::Box5;
use arrayvec::ArrayVec;

// At most two boxes a side.
pub type Rest = ArrayVec<Box5, 10>;

// Pushes the whole with the one side below that of the part, and above it.
macro_rules! push_outside {
    ($rest:ident, $whole:ident, $part:ident, $side:ident) => {
        let (w, c) = ($whole.$side, $part.$side);
        if w.0 < c.0 {
            $rest.push(Box5 {
                $side: (w.0, c.0 - 1),
                ..*$whole
            });
        }
        if c.1 < w.1 {
            $rest.push(Box5 {
                $side: (c.1 + 1, w.1),
                ..*$whole
            });
        }
    };
}

fn push_off_proto(rest: &mut Rest, whole: &Box5, part: &Box5)
    requires within { IsWithin part.now whole.now }
    requires room { array_vec_len rest.old ≤ 8 }
    ensures items { rest.new.items ≡ rest.old.items ++ off_proto whole.now part.now }
    ensures few { array_vec_len rest.new ≤ array_vec_len rest.old + 2 }
{
    push_outside!(rest, whole, part, proto);
}

fn push_off_src(rest: &mut Rest, whole: &Box5, part: &Box5)
    requires within { IsWithin part.now whole.now }
    requires room { array_vec_len rest.old ≤ 8 }
    ensures items { rest.new.items ≡ rest.old.items ++ off_src whole.now part.now }
    ensures few { array_vec_len rest.new ≤ array_vec_len rest.old + 2 }
{
    push_outside!(rest, whole, part, src);
}

fn push_off_dst(rest: &mut Rest, whole: &Box5, part: &Box5)
    requires within { IsWithin part.now whole.now }
    requires room { array_vec_len rest.old ≤ 8 }
    ensures items { rest.new.items ≡ rest.old.items ++ off_dst whole.now part.now }
    ensures few { array_vec_len rest.new ≤ array_vec_len rest.old + 2 }
{
    push_outside!(rest, whole, part, dst);
}

fn push_off_p(rest: &mut Rest, whole: &Box5, part: &Box5)
    requires within { IsWithin part.now whole.now }
    requires room { array_vec_len rest.old ≤ 8 }
    ensures items { rest.new.items ≡ rest.old.items ++ off_p whole.now part.now }
    ensures few { array_vec_len rest.new ≤ array_vec_len rest.old + 2 }
{
    push_outside!(rest, whole, part, p);
}

fn push_off_q(rest: &mut Rest, whole: &Box5, part: &Box5)
    requires within { IsWithin part.now whole.now }
    requires room { array_vec_len rest.old ≤ 8 }
    ensures items { rest.new.items ≡ rest.old.items ++ off_q whole.now part.now }
    ensures few { array_vec_len rest.new ≤ array_vec_len rest.old + 2 }
{
    push_outside!(rest, whole, part, q);
}

// Each side in turn is cut down to that of the part, and what was outside is kept.
pub fn rest_without(whole: &Box5, part: &Box5) -> Rest
    requires within { IsWithin part.now whole.now }
    ensures items { result.items ≡ rest_of whole.now part.now }
{
    let mut rest = ArrayVec::new();
    let mut w = *whole;
    push_off_proto(&mut rest, &w, part);
    w.proto = part.proto;
    push_off_src(&mut rest, &w, part);
    w.src = part.src;
    push_off_dst(&mut rest, &w, part);
    w.dst = part.dst;
    push_off_p(&mut rest, &w, part);
    w.p = part.p;
    push_off_q(&mut rest, &w, part);
    rest
}
