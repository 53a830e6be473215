//! Headers of requests as a walk changes them, for all headers of a box at once: each field is a
//! constant or a field of the request. A question about them is answered on a part of the box on all
//! of whose headers the answer is the same.
#![tactic(auto)]

mod fields;
mod images;
mod laws;
mod narrow;
mod sides;
mod translate;

pub use fields::{Field, Side};
pub use images::{Image, Part};
pub use laws::{
    aligned_bodies_compose, answers_compare, bodies_are_aligned, bodies_compose, bodies_hold_low,
    cuts_are_inside, ends_compose, images_fit, narrowed_are_aligned, opens_compare,
};
pub use sides::side_of;
