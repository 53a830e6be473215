// What is left of a box beside a part that begins where it begins.
ghost use Rattle.std.specs.Prelude.{◌≡◌, ◌≤◌, ◌+◌, ◌++◌};
ghost use Rattle.arrayvec.specs.ArrayVec.{array_vec_len};
ghost use Rattle.box_images.specs.declared.fields.Side.TheVariants.{Dst, P, Proto, Q, Src};
ghost use Rattle.ordered_cover.specs.Beside.{after_side, beside};

use arrayvec::ArrayVec;
use header_boxes::Box5;

// At most one box a side.
pub type Beside = ArrayVec<Box5, 5>;

// Pushes the whole with the one side after that of the part.
macro_rules! push_after {
    ($rest:ident, $whole:ident, $part:ident, $side:ident) => {
        let (w, c) = ($whole.$side, $part.$side);
        if c.1 < w.1 {
            $rest.push(Box5 {
                $side: (c.1 + 1, w.1),
                ..*$whole
            });
        }
    };
}

fn push_after_proto(rest: &mut Beside, whole: &Box5, part: &Box5)
    requires { array_vec_len rest.old ≤ 4 }
    ensures items { rest.new.items ≡ rest.old.items ++ after_side whole.now part.now Proto }
    ensures few { array_vec_len rest.new ≤ array_vec_len rest.old + 1 }
{
    push_after!(rest, whole, part, proto);
}

fn push_after_src(rest: &mut Beside, whole: &Box5, part: &Box5)
    requires { array_vec_len rest.old ≤ 4 }
    ensures items { rest.new.items ≡ rest.old.items ++ after_side whole.now part.now Src }
    ensures few { array_vec_len rest.new ≤ array_vec_len rest.old + 1 }
{
    push_after!(rest, whole, part, src);
}

fn push_after_dst(rest: &mut Beside, whole: &Box5, part: &Box5)
    requires { array_vec_len rest.old ≤ 4 }
    ensures items { rest.new.items ≡ rest.old.items ++ after_side whole.now part.now Dst }
    ensures few { array_vec_len rest.new ≤ array_vec_len rest.old + 1 }
{
    push_after!(rest, whole, part, dst);
}

fn push_after_p(rest: &mut Beside, whole: &Box5, part: &Box5)
    requires { array_vec_len rest.old ≤ 4 }
    ensures items { rest.new.items ≡ rest.old.items ++ after_side whole.now part.now P }
    ensures few { array_vec_len rest.new ≤ array_vec_len rest.old + 1 }
{
    push_after!(rest, whole, part, p);
}

fn push_after_q(rest: &mut Beside, whole: &Box5, part: &Box5)
    requires { array_vec_len rest.old ≤ 4 }
    ensures items { rest.new.items ≡ rest.old.items ++ after_side whole.now part.now Q }
    ensures few { array_vec_len rest.new ≤ array_vec_len rest.old + 1 }
{
    push_after!(rest, whole, part, q);
}

/// The boxes that are left of a box beside a part that begins where it begins. Each side in turn is cut down to that of
/// the part, so the first of them is as wide as the whole, and the last one, which is cut off by q, begins first.
pub fn beside(whole: &Box5, part: &Box5) -> Beside
    ensures { result.items ≡ beside whole.now part.now }
{
    let mut rest = ArrayVec::new();
    let mut w = *whole;
    push_after_proto(&mut rest, &w, part);
    w.proto = part.proto;
    push_after_src(&mut rest, &w, part);
    w.src = part.src;
    push_after_dst(&mut rest, &w, part);
    w.dst = part.dst;
    push_after_p(&mut rest, &w, part);
    w.p = part.p;
    push_after_q(&mut rest, &w, part);
    rest
}
